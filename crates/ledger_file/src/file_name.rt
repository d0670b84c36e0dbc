//! The names of a ledger's files.
ghost use Rattle.std.specs.Prelude.{◌≡◌};
ghost use Rattle.ledger_file.specs.Ledger.{ledger_name, new_name};

use disk_model::Name;

/// The file of the ledger.
pub(crate) fn ledger_file_name() -> Name
    ensures { result ≡ ledger_name }
{
    Name::new(b"ledger").unwrap()
}

/// The file in which a new ledger is made.
pub(crate) fn new_file_name() -> Name
    ensures { result ≡ new_name }
{
    Name::new(b"ledger.new").unwrap()
}
