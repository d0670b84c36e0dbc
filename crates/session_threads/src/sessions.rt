//! A session that a thread holds: what it is begun with, and what it hands back.
ghost use Rattle.std.specs.Prelude.{◌≡◌};
ghost use Rattle.mail_conf.specs.ConfView.{conf_text};
ghost use Rattle.session_threads.specs.Held.{IsHeld};

use binkp_link::Line;
use mail_conf::Conf;
use session_core::Side;
use session_run::Report;
use shared_desk::{GateName, Roams};
use std::marker::PhantomData;
use std::snapshot::Snapshot;
use std::thread::Promise;
use turn_gate::{Grows, Pass};

/// A session before its first turn.
#[derive(Drop)]
pub struct Begun<L, V: Grows> {
    /// At which place its line was given.
    pub place: u32,
    pub side: Side,
    /// Offered at the answering side alone.
    pub challenge: [u8; 16],
    /// The moment, in seconds since the start of 1970.
    pub moment: u64,
    pub line: L,
    pub pass: Pass<V>,
}

/// A session that is over: its report, its line and its pass.
#[derive(Drop)]
pub struct Done<L, V: Grows> {
    pub report: Report,
    pub line: L,
    pub pass: Pass<V>,
}

/// What a thread promises: it holds the whole session that was begun, by these settings.
#[derive(Drop)]
pub struct HeldWhole<L, V: Grows, G: GateName> {
    pub begun: Snapshot<Begun<L, V>>,
    pub conf: Snapshot<Conf>,
    pub of: PhantomData<G>,
}

impl<L: Line, V: Roams, G: GateName> Promise<Done<L, V>> for HeldWhole<L, V, G> {
    ghost kept_by = { λ p done. IsHeld L.state V.sight G.table (conf_text p.conf.value) p.begun.value done };
}

impl<L, V: Grows, G: GateName> HeldWhole<L, V, G> {
    /// The promise to hold this session. Takes no memory.
    pub fn new(begun: &Begun<L, V>, conf: &Conf) -> HeldWhole<L, V, G>
        ensures begun { result.begun.value ≡ begun.now }
        ensures conf { result.conf.value ≡ conf.now }
    {
        HeldWhole {
            begun: Snapshot::of(begun),
            conf: Snapshot::of(conf),
            of: PhantomData,
        }
    }
}
