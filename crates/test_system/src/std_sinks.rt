//! A sink over a writer.
use crate::sheets::Sheet;
use binkp_link::Sink;
use ftn_addr::Failed;
use real_edge::StdSink;
use std::cell::Cell;
use std::io;
use std::io::Write;
use std::test::Fail;
use test_files::Journal;

// A writer that fails where it is to write, or else where it is to flush.
#[derive(Drop)]
struct Broken {
    writes: bool,
}

impl Write for Broken {
    fn write(&mut self, buf: &[u8]) -> io::Result<usize> {
        if self.writes {
            Ok(buf.len())
        } else {
            Err(io::Error::from(io::ErrorKind::BrokenPipe))
        }
    }

    fn flush(&mut self) -> io::Result<()> {
        Err(io::Error::from(io::ErrorKind::BrokenPipe))
    }
}

#[test]
fn puts_all(rt: HostRuntime) -> Result<(), Fail> {
    let written = Cell::new(Journal::new());
    let mut sink = StdSink::new(Sheet { written: &written });
    assert_eq!(rt; sink.put(b"status 7 Dropped\n"), Ok(()));
    assert_eq!(rt; written.get().as_str(), "status 7 Dropped\n");
    assert_eq!(rt; sink.faults(), 0);
    Ok(())
}

#[test]
fn a_failure_is_counted(rt: HostRuntime) -> Result<(), Fail> {
    let mut sink = StdSink::new(Broken { writes: false });
    assert_eq!(rt; sink.put(b"status 7 Dropped\n"), Err(Failed));
    assert_eq!(rt; sink.faults(), 1);
    let mut unflushed = StdSink::new(Broken { writes: true });
    assert_eq!(rt; unflushed.put(b"status 7 Dropped\n"), Err(Failed));
    assert_eq!(rt; unflushed.faults(), 1);
    Ok(())
}
