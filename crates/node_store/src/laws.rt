//! What holds of every name, of every ledger, and of every world.
ghost use Rattle.std.specs.Prelude.{◌≡◌, ◌≢◌, ◌<◌, ◌≤◌, ◌^◌, ℕ, List, Some};
ghost use Rattle.ftn_addr.specs.Address.{Address};
ghost use Rattle.ledger_file.specs.Ledger.{ledger_name, new_name};
ghost use Rattle.disk_model.specs.World.{World};
ghost use Rattle.ledger_rec.specs.Fold.{State, fold_step};
ghost use Rattle.ledger_rec.specs.Payloads.{fold_of};
ghost use Rattle.ledger_rec.specs.Record.{RecordText};
ghost use Rattle.node_model.specs.Durable.{with_given as node_with_given};
ghost use Rattle.node_model.specs.StoreStates.{Shelf};
ghost use Rattle.node_store.specs.Contents.{durable_after, durable_by, with_given};
ghost use Rattle.node_store.specs.Numbers.{IsNumbered};
ghost use Rattle.node_store.specs.Opening.{IsReady, IsRefused};
ghost use Rattle.node_store.specs.Worlds.{HasFiles, IsBadFile, OpensAs, contents_in, durable_in};
ghost use Rattle.node_store.specs.declared.opening.fault.StoreOpenFault.{StoreOpenFault as OpenFault};
ghost use Rattle.node_store.specs.Names.{HasPlace, in_name, out_name, take_name, take_number};
ghost use Rattle.node_store.specs.declared.names.TakeKind.{TakeKind as KindOfTake};

/// A name is that of one number, whatever the numbers.
pub fn each_name_has_one_number()
    ensures queued { (n m : ℕ) → out_name n ≡ out_name m → n ≡ m }
    ensures received { (n m : ℕ) → in_name n ≡ in_name m → n ≡ m }
    ensures taken { (n m : ℕ) (a b : Address) (j k : KindOfTake) → take_name n a j ≡ take_name m b k → n ≡ m }
{}

/// The ledger, queued files, received files and takes have different names.
pub fn names_are_apart()
    ensures queued { (n m : ℕ) → in_name n ≢ out_name m }
    ensures ledger { (n : ℕ) → in_name n ≢ ledger_name }
    ensures no_queued_ledger { (n : ℕ) → out_name n ≢ ledger_name }
    ensures new_ledger { (n : ℕ) → in_name n ≢ new_name }
    ensures no_queued_new_ledger { (n : ℕ) → out_name n ≢ new_name }
{}

/// A take's name is read as its number. There is no take 0.
pub fn take_is_read()
    ensures { (take : ℕ) (a : Address) (kind : KindOfTake) → 1 ≤ take → take < 2 ^ 32 → HasPlace a → take_number (take_name take a kind) ≡ Some take }
{}

/// Whatever a ledger's payloads are, no two entries that they leave have one number, and no two receipts.
pub fn each_fold_is_numbered()
    ensures { (payloads : List (List ℕ)) (s : State) → fold_of payloads ≡ Some s → IsNumbered s }
{}

/// In every world, one record more in the ledger is the node's change for that record.
pub fn each_record_is_a_change()
    ensures { (w : World) (payloads : List (List ℕ)) (s : State) (r : RecordText) (t : State) → fold_of payloads ≡ Some s → fold_step s r ≡ Some t → durable_in w t ≡ durable_after (contents_in w) r (durable_in w s) }
{}

/// A file that is given, with its bytes kept, is the node's change for giving.
pub fn giving_is_a_change()
    ensures { (w : World) (s : State) (number : ℕ) → durable_by (with_given number (contents_in w)) s ≡ node_with_given number (durable_in w s) }
{}

/// No file of a world is bad where all files that belong to its ledger fit.
pub fn no_bad_file_where_all_fit()
    ensures { (w : World) (s : State) (name : List ℕ) → HasFiles s w → IsBadFile s w name → ⊥ }
{}

/// No world that opens is refused, whatever else is wrong with it.
pub fn no_world_that_opens_is_refused()
    ensures { (w : World) (shelf : Shelf) (fault : OpenFault) → OpensAs w shelf → IsRefused fault w → ⊥ }
{}

/// A disk of which a stop leaves what a read gives can be opened.
pub fn what_is_read_is_ready()
    ensures { (w : World) → IsReady w w }
{}
