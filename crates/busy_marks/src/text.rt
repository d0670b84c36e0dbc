//! The text of a mark.
ghost use Rattle.std.specs.Prelude.{◌≡◌, IfOk};
ghost use Rattle.ftn_addr.specs.Address.{address};
ghost use Rattle.busy_marks.specs.Text.{mark_text};

use ftn_addr::{Addr, Bytes, NoMemory, write_addr};
use std::alloc::Global;

/// The text of a mark that this node makes: `binkp `, the home address in its canonical form, and LF.
pub fn mark_text(alloc: Global, home: &Addr) -> Result<Bytes, NoMemory>
    ensures { IfOk result (λ text. text.list ≡ mark_text (address home.now)) }
{
    let mut text = Bytes::from_slice(alloc, b"binkp ")?;
    write_addr(alloc, home, &mut text)?;
    text.push_slice(b"\n")?;
    Ok(text)
}
