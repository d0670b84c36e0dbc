//! What holds of every login, whatever the peer says.
ghost use Rattle.std.specs.Prelude.{◌≡◌, ℕ, Bool, List, [], ◌∷◌};
ghost use Rattle.binkp_args.specs.Command.{CommandText, Nul, Pwd};
ghost use Rattle.cram_md5.specs.Offer.{Offered, Absent, Md5, offer_of};
ghost use Rattle.ftn_addr.specs.Address.{Address};
ghost use Rattle.session_auth.specs.Laws.{IsHidden, IsSent, KeepsSome, LetsInBy, addresses_at, announced_by};
ghost use Rattle.session_auth.specs.Login.{Awaits_address, Awaits_password, Awaits_word, In, More, Stage, Terms, reply_to};

/// The answering side lets in by an M_PWD alone. It is secure exactly where the password was checked that
/// the settings have for one of the peer's addresses; where they have none for any it isn't.
pub fn secure_where_a_password_was_checked()
    ensures { (t : Terms) (peers stay : List Address) (command : CommandText) (secure : Bool) → (reply_to t (Awaits_password peers) command).step ≡ In stay secure → LetsInBy t peers command secure }
{}

/// The calling side's login is secure exactly where it has a password for the node that it called, which it
/// has sent then.
pub fn secure_where_a_password_was_sent()
    ensures sent { (t : Terms) (offer : Offered) (command : CommandText) (peers : List Address) (secure : Bool) → (reply_to t (Awaits_address offer) command).step ≡ More (Awaits_word peers secure) → IsSent t offer (reply_to t (Awaits_address offer) command).said secure }
    ensures kept { (t : Terms) (peers stay : List Address) (was secure : Bool) (command : CommandText) → (reply_to t (Awaits_word peers was) command).step ≡ In stay secure → secure ≡ was }
{}

/// The peers that a login has at any time are some of those that the peer announced, in their order.
pub fn addresses_stay_in_order()
    ensures { (t : Terms) (stage : Stage) (command : CommandText) → KeepsSome (addresses_at stage (announced_by command)) (reply_to t stage command).step }
{}

/// Where the peer offered a challenge for MD5 no plain password is said; and a text without an offer takes
/// none away.
pub fn no_plain_password_at_an_offer()
    ensures hidden { (t : Terms) (challenge text : List ℕ) (command : CommandText) → (reply_to t (Awaits_address (Md5 challenge)) command).said ≡ Pwd text ∷ [] → IsHidden challenge text }
    ensures kept { (t : Terms) (offer : Offered) (text : List ℕ) → offer_of text ≡ Absent → (reply_to t (Awaits_address offer) (Nul text)).step ≡ More (Awaits_address offer) }
{}
