//! A writer whose text is seen while it is used.
use std::cell::Cell;
use std::io::Write;
use std::{io, str};
use test_files::Journal;

#[derive(Drop)]
pub struct Sheet<'a> {
    pub written: &'a Cell<Journal>,
}

impl<'a> Write for Sheet<'a> {
    fn write(&mut self, buf: &[u8]) -> io::Result<usize> {
        let Ok(text) = str::from_utf8(buf) else {
            return Err(io::Error::from(io::ErrorKind::InvalidData));
        };
        let mut written = self.written.get();
        written.push(text);
        self.written.set(written);
        Ok(buf.len())
    }

    fn flush(&mut self) -> io::Result<()> {
        Ok(())
    }
}
