//! The names of a nodelist's files.
ghost use Rattle.std.specs.Prelude.{◌≡◌};
ghost use Rattle.nodelist_files.specs.Files.{index_name, list_name, new_name};

use disk_model::Name;

/// The list.
pub(crate) fn list_file() -> Name
    ensures { result ≡ list_name }
{
    Name::new(b"nodelist.txt").unwrap()
}

/// Its index.
pub(crate) fn index_file() -> Name
    ensures { result ≡ index_name }
{
    Name::new(b"nodelist.idx").unwrap()
}

/// The file in which both are made.
pub(crate) fn new_file() -> Name
    ensures { result ≡ new_name }
{
    Name::new(b"nodelist.new").unwrap()
}
