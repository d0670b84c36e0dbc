//! The files that a trial draws, by values that another program computed.
use ftn_addr::NoMemory;
use node_trial::{Generator, Sender};
use std::alloc::Global;
use std::test::Fail;

// A file's name, its size, its first three bytes and its last, its time, and whether the first node sends it.
type Row = (&'static [u8], usize, [u8; 4], u64, bool);

const FIRST: [Row; 4] = [
    (
        b"f00000001.dat",
        4774,
        [89, 204, 230, 185],
        1_000_000_001,
        true,
    ),
    (
        b"f00000002.dat",
        2231,
        [71, 165, 43, 20],
        1_000_000_002,
        false,
    ),
    (
        b"f00000003.dat",
        4221,
        [14, 141, 136, 74],
        1_000_000_003,
        true,
    ),
    (
        b"f00000004.dat",
        9601,
        [158, 62, 75, 4],
        1_000_000_004,
        false,
    ),
];

// The first three bytes and the last.
fn ends(bytes: &[u8]) -> [u8; 4] {
    match bytes {
        [first, second, third, .., last] => [*first, *second, *third, *last],
        _ => [0; 4],
    }
}

fn is_next(
    alloc: Global,
    generator: &mut Generator,
    number: u32,
    want: Row,
) -> Result<bool, NoMemory> {
    let file = generator.draw_file(alloc, number)?;
    let (name, size, at_ends, time, is_first) = want;
    Ok(
        file.key.name.as_slice() == name
            && file.key.size == size as u64
            && file.bytes.len() == size
            && ends(file.bytes.as_slice()) == at_ends
            && file.key.time == time
            && (file.sender == Sender::First) == is_first,
    )
}

#[test]
fn files_are_drawn_in_turn(rt: HostRuntime) -> Result<(), Fail> {
    let mut generator = Generator::new(1);
    for (index, want) in FIRST.into_iter().enumerate() {
        let is = is_next(rt.alloc(), &mut generator, index as u32 + 1, want)?;
        assert!(rt; is, "file {index}");
    }
    Ok(())
}
