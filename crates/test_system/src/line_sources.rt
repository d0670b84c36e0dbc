ghost use Rattle.std.specs.Prelude.{◌≡◌, ◌<◌, length, IfOk};
ghost use Rattle.binkp_link.specs.LineSources.{IsUnused};
ghost use Rattle.binkp_link.specs.MemLines.{mem_state};

use binkp_link::{
    Dialled, Line, LineCounts, Lines, MemLine, MemLines, NextAct, NextLine, ReadAct, ReadAnswer,
};
use ftn_addr::{Bytes, Failed};
use std::alloc::Global;
use std::test::Fail;

// A line on which these bytes come.
fn line_of(alloc: Global, bytes: &[u8]) -> Result<MemLine, Fail>
    requires { 0 < length bytes.now }
    ensures { IfOk result (λ line. IsUnused (mem_state line)) }
{
    let mut reads = Vec::new(alloc);
    reads.push(ReadAct::Bytes(Bytes::from_slice(alloc, bytes)?))?;
    Ok(MemLine::new(alloc, reads, Vec::new(alloc)))
}

#[test]
fn callers_come_in_order_and_then_none(rt: HostRuntime) -> Result<(), Fail> {
    let alloc = rt.alloc();
    let mut acts = Vec::new(alloc);
    acts.push(NextAct::Nothing)?;
    acts.push(NextAct::Failed)?;
    acts.push(NextAct::Line(line_of(alloc, b"hello")?))?;
    let mut lines = MemLines::new(alloc, acts, Vec::new(alloc));
    assert!(rt; matches!(lines.next(), NextLine::Nothing));
    assert!(rt; matches!(lines.next(), NextLine::Failed));
    assert!(rt; lines.handed(0).is_none());
    let NextLine::Came(mut line) = lines.next() else {
        panic!(rt; "no line came");
    };
    let mut buffer = [0u8; 8];
    assert_eq!(rt; line.read(&mut buffer, true), ReadAnswer::Came(5));
    lines.back(0, line);
    assert!(rt; lines.handed(0).is_some());
    assert!(rt; lines.handed(1).is_none());
    assert!(rt; matches!(lines.next(), NextLine::Stop));
    assert!(rt; matches!(lines.next(), NextLine::Stop));
    let counts = LineCounts {
        faults: 1,
        misses: 0,
        nothings: 1,
        stops: 2,
        given: 1,
    };
    assert_eq!(rt; lines.counts(), counts);
    Ok(())
}

#[test]
fn a_dial_takes_the_next_line(rt: HostRuntime) -> Result<(), Fail> {
    let alloc = rt.alloc();
    let mut dials = Vec::new(alloc);
    dials.push(None)?;
    dials.push(Some(line_of(alloc, b"hello")?))?;
    let mut lines = MemLines::new(alloc, Vec::new(alloc), dials);
    let host = Bytes::from_slice(alloc, b"example.net")?;
    assert!(rt; matches!(lines.dial(&host, 24554), Dialled::Failed));
    assert!(rt; matches!(lines.dial(&host, 24554), Dialled::Line(_)));
    assert!(rt; matches!(lines.dial(&host, 24554), Dialled::Failed));
    assert_eq!(rt; lines.counts().misses, 2);
    assert_eq!(rt; lines.counts().given, 1);
    Ok(())
}

#[test]
fn listening_fails_where_deaf(rt: HostRuntime) -> Result<(), Fail> {
    let alloc = rt.alloc();
    let mut lines = MemLines::new(alloc, Vec::new(alloc), Vec::new(alloc));
    assert_eq!(rt; lines.listen(24554), Ok(()));
    lines.deaf();
    assert_eq!(rt; lines.listen(24554), Err(Failed));
    assert_eq!(rt; lines.counts().faults, 1);
    Ok(())
}
