//! Numbers behind words.
ghost use Rattle.std.specs.Prelude.{◌≡◌, ◌++◌, OnOk};
ghost use Rattle.std.specs.Fmt.{decimal};

use ftn_addr::{Bytes, NoMemory};
use std::alloc::Global;

/// Adds a word and a number behind it.
pub(crate) fn push_count(
    alloc: Global,
    word: &[u8],
    count: u64,
    line: &mut Bytes,
) -> Result<(), NoMemory>
    ensures { OnOk result (line.new.list ≡ line.old.list ++ word.now ++ decimal count) }
{
    line.push_slice(word)?;
    line.push_number(alloc, count)
}
