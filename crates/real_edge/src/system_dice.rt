//! Challenges of random bytes.
ghost use Rattle.std.specs.Prelude.{◌≡◌, IfOk};
ghost use Rattle.ftn_addr.specs.Counts.{next_count};
ghost use Rattle.real_edge.specs.SystemDices.{challenge_at};

use crate::error::{Answer, SystemCall, told};
use binkp_link::Dice;
use cram_md5::hmac;
use rand::TryRng;
use rand::rngs::SysRng;
use std::random::RandomSource;

/// A source of challenges that nobody can foretell: the digests of 1, 2 and so on under sixteen bytes that the system gave
/// (HMAC-MD5, RFC 2104).
///
/// The system is asked once, so no draw can fail. That its bytes are random is the system's word, and no contract's.
#[derive(Drop)]
pub struct SystemDice {
    key: [u8; 16],
    drawn: u64,
}

impl SystemDice {
    /// A source with a key of its own. It is refused where the system gives none.
    pub fn new<R: RandomSource>(runtime: &R) -> Answer<SystemDice>
        ensures { IfOk result (λ dice. dice.drawn ≡ 0) }
    {
        let mut key = [0; 16];
        let mut source = SysRng::new(runtime);
        told(SystemCall::Random, source.try_fill_bytes(&mut key))?;
        Ok(SystemDice::with_key(key))
    }

    /// A source whose key is known.
    pub fn with_key(key: [u8; 16]) -> SystemDice
        ensures key { result.key ≡ key }
        ensures none { result.drawn ≡ 0 }
    {
        SystemDice { key, drawn: 0 }
    }
}

impl Dice for SystemDice {
    /// The next challenge. None comes again within 2^64 draws.
    fn sixteen(&mut self) -> [u8; 16]
        ensures challenge { result ≡ challenge_at self.old.key self.new.drawn }
        ensures counted { self.new.drawn ≡ next_count self.old.drawn }
        ensures key { self.new.key ≡ self.old.key }
    {
        self.drawn = self.drawn.saturating_add(1);
        hmac(&self.key, &self.drawn.to_be_bytes())
    }
}
