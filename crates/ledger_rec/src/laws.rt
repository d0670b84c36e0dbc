//! What holds of every record and its bytes.
ghost use Rattle.std.specs.Prelude.{◌≡◌, ◌<◌, ◌≤◌, ℕ, List, [], ◌∷◌, ◌++◌, length, map, option_and_then, Some, Ok};
ghost use Rattle.ledger_rec.specs.Fold.{State, fold_all};
ghost use Rattle.ledger_rec.specs.Limits.{AreBytes, Fits, HasNumbers};
ghost use Rattle.ledger_rec.specs.Order.{IsOrderly};
ghost use Rattle.ledger_rec.specs.Payloads.{record_in, stepped, fold_of};
ghost use Rattle.ledger_rec.specs.Record.{RecordText};
ghost use Rattle.ledger_rec.specs.Spelling.{AreRecords, Spells, spelling};

/// A payload is the bytes of one record at most.
pub fn one_record_at_most()
    ensures { (payload : List ℕ) (r s : RecordText) → HasNumbers r → HasNumbers s → Spells r payload → Spells s payload → r ≡ s }
{}

/// A payload that is a record's bytes reads as that record, whatever the home.
pub fn spelled_is_read()
    ensures { (payload : List ℕ) (r : RecordText) → HasNumbers r → Spells r payload → record_in payload ≡ Ok r }
{}

/// What reads as a record is the bytes of that record, whose numbers and fields keep their limits.
pub fn read_is_spelled()
    ensures { (payload : List ℕ) (r : RecordText) → AreBytes payload → record_in payload ≡ Ok r → HasNumbers r × Spells r payload }
{}

/// A record has 1 to 1,400 bytes.
pub fn fits_a_payload()
    ensures some { (r : RecordText) → 0 < length (spelling r) }
    ensures short { (r : RecordText) → Fits r → length (spelling r) ≤ 1400 }
{}

/// Whatever a ledger's payloads are, no two marks that they leave have one number, none has that of a
/// receipt, and all these numbers are used.
pub fn each_fold_is_orderly()
    ensures { (payloads : List (List ℕ)) (s : State) → fold_of payloads ≡ Some s → IsOrderly s }
{}

/// The payloads of more records leave what these records leave, one step after another.
pub fn more_records_fold_on()
    ensures { (payloads : List (List ℕ)) (records : List RecordText) → AreRecords records → fold_of (payloads ++ map spelling records) ≡ option_and_then (λ s. fold_all s records) (fold_of payloads) }
{}

/// One payload more is one step more.
pub fn one_payload_more()
    ensures { (payloads : List (List ℕ)) (payload : List ℕ) → fold_of (payloads ++ payload ∷ []) ≡ stepped (fold_of payloads) payload }
{}
