//! Whose password is wanted, and which one is given.
ghost use Rattle.std.specs.Prelude.{◌≡◌, map, take, filter, option_map, [], ◌∷◌, ◌++◌, OnOk, IfOk};
ghost use Rattle.std.specs.List.{list_any};
ghost use Rattle.cram_md5.specs.Offer.{offer_of};
ghost use Rattle.cram_md5.specs.Views.{offered};
ghost use Rattle.ftn_addr.specs.Address.{address, same_address};
ghost use Rattle.mail_conf.specs.ConfView.{conf_text};
ghost use Rattle.session_auth.specs.Passwords.{is_among, later_offer, password_for, shares, spoken_password, wanted_password, without_own};

use cram_md5::{Offer, answer_text, read_offer};
use ftn_addr::{Addr, Bytes, NoMemory, is_same_address};
use mail_conf::Conf;
use std::alloc::Global;

/// The most bytes of a plain password or of a setting that are sent.
const MAX_SENT: usize = 1_024;

/// The first bytes, so many at the most.
pub(crate) fn front(text: &[u8], most: usize) -> &[u8]
    ensures { result.now ≡ take most text.now }
{
    if text.len() > most {
        &text[..most]
    } else {
        text
    }
}

/// The first 1,024 bytes.
pub(crate) fn cut(text: &[u8]) -> &[u8]
    ensures { result.now ≡ take 1024 text.now }
{
    front(text, MAX_SENT)
}

/// The password that the settings have for an address; an empty one is none.
pub(crate) fn password_for<'a>(conf: &'a Conf, addr: &Addr) -> &'a [u8]
    ensures { result.now ≡ password_for (conf_text conf.now) (address addr.now) }
{
    match conf.node(addr) {
        Some(node) => node.password.as_slice(),
        None => &[],
    }
}

/// The password of the first of these addresses that has one.
pub(crate) fn wanted_password<'a>(conf: &'a Conf, peers: &[Addr]) -> Option<&'a [u8]>
    ensures { option_map (λ password. password.now) result ≡ wanted_password (conf_text conf.now) (map address peers.now) }
{
    for peer in peers {
        let password = password_for(conf, peer);
        if !password.is_empty() {
            return Some(password);
        }
    }
    None
}

fn any_is(addr: &Addr, addresses: &[Addr]) -> bool
    ensures { result ≡ list_any (λ other. same_address (address addr.now) (address other)) addresses.now }
{
    addresses.iter().any(|other| is_same_address(addr, other))
}

/// Whether an address is one of these.
pub(crate) fn is_among(addr: &Addr, addresses: &[Addr]) -> bool
    ensures { result ≡ is_among (address addr.now) (map address addresses.now) }
{
    any_is(addr, addresses)
}

fn push_other(own: &[Addr], addr: Addr, others: &mut Vec<Addr>) -> Result<(), NoMemory>
    ensures { OnOk result (map address others.new.items ≡ map address others.old.items ++ without_own (map address own.now) (address addr ∷ [])) }
{
    if !is_among(&addr, own) {
        others.push(addr)?;
    }
    Ok(())
}

/// The addresses that are none of the own ones.
pub(crate) fn without_own(
    alloc: Global,
    own: &[Addr],
    addresses: Vec<Addr>,
) -> Result<Vec<Addr>, NoMemory>
    ensures { IfOk result (λ others. map address others.items ≡ without_own (map address own.now) (map address addresses.items)) }
{
    let mut others = Vec::new(alloc);
    for addr in addresses {
        push_other(own, addr, &mut others)?;
    }
    Ok(others)
}

/// Whether an address has that password, or none.
fn shares(conf: &Conf, password: &[u8], addr: &Addr) -> bool
    ensures { result ≡ shares (conf_text conf.now) password.now (address addr.now) }
{
    let own = password_for(conf, addr);
    own.is_empty() || own == password
}

fn push_sharer(
    conf: &Conf,
    password: &[u8],
    addr: Addr,
    sharers: &mut Vec<Addr>,
) -> Result<(), NoMemory>
    ensures { OnOk result (map address sharers.new.items ≡ map address sharers.old.items ++ filter (shares (conf_text conf.now) password.now) (address addr ∷ [])) }
{
    if shares(conf, password, &addr) {
        sharers.push(addr)?;
    }
    Ok(())
}

/// The addresses that have that password, or none.
pub(crate) fn sharers(
    alloc: Global,
    conf: &Conf,
    password: &[u8],
    peers: Vec<Addr>,
) -> Result<Vec<Addr>, NoMemory>
    ensures { IfOk result (λ sharers. map address sharers.items ≡ filter (shares (conf_text conf.now) password.now) (map address peers.items)) }
{
    let mut sharers = Vec::new(alloc);
    for addr in peers {
        push_sharer(conf, password, addr, &mut sharers)?;
    }
    Ok(sharers)
}

/// The last offer, once this text has come: a text without an offer takes none away.
pub(crate) fn later_offer(alloc: Global, offer: Offer, text: &[u8]) -> Result<Offer, NoMemory>
    ensures { IfOk result (λ later. offered later ≡ later_offer (offered offer) (offer_of text.now)) }
{
    match read_offer(alloc, text)? {
        Offer::Absent => Ok(offer),
        Offer::Md5(challenge) => Ok(Offer::Md5(challenge)),
        Offer::Foreign => Ok(Offer::Foreign),
        Offer::Bad => Ok(Offer::Bad),
    }
}

/// What M_PWD says: `-` for no password, the answer to an MD5 challenge, or else the password's first
/// 1,024 bytes.
pub(crate) fn spoken_password(
    alloc: Global,
    password: &[u8],
    offer: &Offer,
) -> Result<Bytes, NoMemory>
    ensures { IfOk result (λ text. text.list ≡ spoken_password password.now (offered offer.now)) }
{
    if password.is_empty() {
        return Bytes::from_slice(alloc, b"-");
    }
    match offer {
        Offer::Md5(challenge) => {
            let mut text = Bytes::new(alloc);
            answer_text(alloc, password, challenge.as_slice(), &mut text)?;
            Ok(text)
        }
        Offer::Absent | Offer::Foreign | Offer::Bad => Bytes::from_slice(alloc, cut(password)),
    }
}
