//! The bytes of one file, put into another.
ghost use Rattle.std.specs.Prelude.{◌≡◌, ◌≤◌, Ok, None, IsErr, IfOk, IfSome};
ghost use Rattle.real_edge.specs.Copying.{CopiesAll};

use super::system::write_all;
use crate::error::{Answer, SystemCall, refused, told};
use std::io;
use std::io::{Read, Write};

/// Copies to the end, and answers the number of bytes, or None once there are more than `most`.
pub fn copy_most<S: Read, F: Write>(source: &mut S, file: &mut F, most: u64) -> Answer<Option<u64>>
    ensures few { IfOk result (λ copied. IfSome copied (λ size. size ≤ most)) }
    ensures copied { IfOk result (λ copied. IfSome copied (CopiesAll (S.remaining source.old) (S.remaining source.new) (F.contents file.old) (F.contents file.new))) }
{
    let mut block = [0; 4096];
    let mut copied = 0u64;
    for _ in 0..u64::MAX {
        let Some(came) = unless_interrupted(source.read(&mut block))? else {
            continue;
        };
        if came == 0 {
            return Ok(Some(copied));
        }
        copied = match copied.checked_add(came as u64) {
            Some(size) if size <= most => size,
            _ => return Ok(None),
        };
        write_all(file, &block[..came])?;
    }
    Err(refused(SystemCall::Read, io::ErrorKind::FileTooLarge))
}

// How many bytes a read gave; None where a signal interrupted it, so that it is to be made again.
fn unless_interrupted(answer: io::Result<usize>) -> Answer<Option<usize>>
    ensures came { IfOk result (λ came. IfSome came (λ n. answer ≡ Ok n)) }
    ensures none { IfOk result (λ came. came ≡ None → IsErr answer) }
{
    match answer {
        Err(error) if error.kind() == io::ErrorKind::Interrupted => Ok(None),
        Err(error) => told(SystemCall::Read, Err(error)),
        Ok(came) => Ok(Some(came)),
    }
}
