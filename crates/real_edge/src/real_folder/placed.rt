//! An open file, and where its handle stands.
ghost use Rattle.std.specs.Prelude.{◌≡◌, ◌+◌, length, None, Some, IfSome, OnOk, true};
ghost use Rattle.std.specs.Io.KnownBytes.{Appends, Consumes};

use super::system::{cut_to, write_all};
use crate::error::{Answer, SystemCall, told};
use std::fs::OpenFile;
use std::io::{Read, Seek, SeekFrom, Write};

/// An open file, and the place at which the system reads or writes next; None where that isn't known.
///
/// So a read or a write that begins where the last one ended needs no other call of the system: the handle stands there, and the
/// file has that many bytes. Where a call fails the place means nothing, and the handle is to be dropped.
#[derive(Drop)]
pub struct Placed<F> {
    pub(super) file: F,
    place: Option<u64>,
}

impl<F> Placed<F> {
    /// A file of which so many bytes were read or written since it was opened.
    pub fn new(file: F, place: u64) -> Placed<F>
        ensures file { result.file ≡ file }
        ensures place { result.place ≡ Some place }
    {
        Placed {
            file,
            place: Some(place),
        }
    }

    /// Whether the last read or write ended at that place, and nothing was cut since.
    pub fn ended_at(&self, at: u64) -> bool
        ensures { result ≡ true → self.now.place ≡ Some at }
    {
        self.place == Some(at)
    }
}

impl<F: OpenFile> Placed<F> {
    /// Cuts the file to that length. The handle may stand behind its end then.
    pub fn cut(&mut self, len: u64) -> Answer<()>
        ensures { OnOk result (self.new.place ≡ None) }
    {
        cut_to(&self.file, len)?;
        self.place = None;
        Ok(())
    }
}

impl<F: Read + Write + Seek> Placed<F> {
    /// Reads as many bytes as there is room for, from that place on.
    pub fn read(&mut self, at: u64, out: &mut [u8]) -> Answer<()>
        ensures stands { OnOk result (IfSome self.new.place (λ place. place ≡ at + length out.new)) }
        ensures goes_on { self.old.place ≡ Some at → OnOk result (Consumes (F.remaining self.old.file) (F.remaining self.new.file) out.new) }
    {
        self.go_to(at)?;
        told(SystemCall::Read, self.file.read_exact(out))?;
        self.place = at.checked_add(out.len() as u64);
        Ok(())
    }

    /// Writes all the bytes, from that place on.
    pub fn write(&mut self, at: u64, bytes: &[u8]) -> Answer<()>
        ensures stands { OnOk result (IfSome self.new.place (λ place. place ≡ at + length bytes.now)) }
        ensures goes_on { self.old.place ≡ Some at → OnOk result (Appends (F.contents self.old.file) (F.contents self.new.file) bytes.now) }
    {
        self.go_to(at)?;
        write_all(&mut self.file, bytes)?;
        self.place = at.checked_add(bytes.len() as u64);
        Ok(())
    }

    // The system is asked only where the handle stands elsewhere.
    fn go_to(&mut self, at: u64) -> Answer<()>
        ensures { self.old.place ≡ Some at → self.new.file ≡ self.old.file }
    {
        if self.place != Some(at) {
            told(SystemCall::Seek, self.file.seek(SeekFrom::Start(at)))?;
        }
        Ok(())
    }
}
