//! Challenges of the system's random bytes.
use binkp_link::Dice;
use real_edge::SystemDice;
use std::io;
use std::random::RandomSource;
use std::test::Fail;

// A runtime without a source.
struct Sourceless;

impl RandomSource for Sourceless {
    fn fill_bytes(&self, _buf: &mut [u8]) -> io::Result<()> {
        Err(io::Error::from(io::ErrorKind::Unsupported))
    }
}

#[test]
fn no_two_draws_are_alike(rt: HostRuntime) -> Result<(), Fail> {
    let mut dice = SystemDice::new(&rt).ok().expect(&rt, "a source");
    let mut other = SystemDice::new(&rt).ok().expect(&rt, "a source");
    let draws = [dice.sixteen(), dice.sixteen(), other.sixteen()];
    assert!(rt; draws[0] != draws[1]);
    assert!(rt; draws[0] != draws[2]);
    assert!(rt; draws[1] != draws[2]);
    Ok(())
}

// HMAC-MD5 of 1, 2 and 3, as eight bytes each with the greatest first, under the bytes 0 to 15; from Python's `hmac`.
#[test]
fn a_known_key_gives_known_challenges(rt: HostRuntime) -> Result<(), Fail> {
    let mut dice = SystemDice::with_key([0, 1, 2, 3, 4, 5, 6, 7, 8, 9, 10, 11, 12, 13, 14, 15]);
    for wanted in [
        0x62c22d3a0080d0d1fc47380580ca5940_u128,
        0xe7db8f48c1df5d2b924b9aa63dc659a8,
        0x7fb5a3c21775bb7e1bbc842eeb1761ca,
    ] {
        assert_eq!(rt; u128::from_be_bytes(dice.sixteen()), wanted);
    }
    Ok(())
}

#[test]
fn without_a_source_it_is_refused(rt: HostRuntime) -> Result<(), Fail> {
    let refused = SystemDice::new(&Sourceless).err().expect(&rt, "an error");
    assert_eq!(rt; refused.error.kind(), io::ErrorKind::Unsupported);
    Ok(())
}
