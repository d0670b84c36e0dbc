//! The store that a script plays over while no hub has it.
ghost use Rattle.std.specs.Prelude.{◌≡◌, IfOk};
ghost use Rattle.test_hub.specs.Fitting.{FitsHub};

use crate::asks::{ASKS, ask};
use crate::calls::call;
use crate::queueing::{Queued, queue_bytes, queue_copy};
use crate::seats::{Seats, conf};
use crate::words::{new_file, said, unmet};
use anyhow::{Result, bail};
use ftn_addr::NoMemory;
use mem_store::ListStore;
use node_model::{Slot, StoreFault};
use std::alloc::Global;
use std::marker::Model;
use std::mem;
use test_script::{bytes, word};

/// A store, and whether it fits a new hub: nothing was done to it but queueing.
#[derive(Drop)]
pub struct BareStore {
    store: ListStore,
    fits: bool,
}

impl Model for BareStore {
    ghost use Rattle.std.specs.Prelude.{IsTrue};
    ghost use Rattle.mem_store.specs.ListStates.{ListState};
    ghost use Rattle.test_hub.specs.Fitting.{FitsHub};

    ghost Value = { ListState };

    ghost view = { λ s. s.store };

    ghost invariant = { λ s. IsTrue s.fits → FitsHub s.store };
}

fn queued_text(alloc: Global, queued: Queued) -> Result<String> {
    match queued {
        Ok(Some(slots)) => said(alloc, Ok::<Vec<Slot>, StoreFault>(slots)),
        Ok(None) => unmet(alloc),
        Err(fault) => said(alloc, Err::<(), StoreFault>(fault)),
    }
}

impl BareStore {
    /// A store with nothing in it, whose call of that number fails.
    pub fn new(alloc: Global, fails: u64) -> Result<BareStore, NoMemory> {
        let mut store = ListStore::new(alloc);
        store.fail_at(fails)?;
        Ok(BareStore { store, fits: true })
    }

    /// The store that a hub had.
    pub fn left(store: ListStore) -> BareStore {
        BareStore { store, fits: false }
    }

    // Stages bytes, and queues them.
    fn queue(&mut self, alloc: Global, words: &[&str]) -> Result<String> {
        let mut file = new_file(alloc, words)?;
        let bytes = bytes(alloc, word(words, 5))?;
        let fits = mem::replace(&mut self.fits, false);
        let queued = queue_bytes(alloc, &mut self.store, &mut file, bytes.as_slice());
        self.fits = fits && queued.is_ok();
        queued_text(alloc, queued)
    }

    // Copies a file of another program in, and queues it.
    fn queue_copy(&mut self, alloc: Global, words: &[&str]) -> Result<String> {
        let mut file = new_file(alloc, words)?;
        self.fits = false;
        let queued = queue_copy(alloc, &mut self.store, &mut file);
        queued_text(alloc, queued)
    }

    /// The hub of these words over the store, in whose place an empty one comes.
    pub fn hub(&mut self, alloc: Global, words: &[&str]) -> Result<Box<Seats>> {
        let conf = conf(alloc, words)?;
        if !self.fits {
            bail!("no hub fits this store")
        }
        self.fits = false;
        let store = mem::replace(&mut self.store, ListStore::new(alloc));
        Seats::over(alloc, conf, store)
    }

    /// What the call or the question of these words answers.
    pub fn play(&mut self, alloc: Global, words: &[&str]) -> Result<String> {
        match word(words, 0) {
            "queue" => self.queue(alloc, words),
            "queue_copy" => self.queue_copy(alloc, words),
            asked if ASKS.contains(&asked) => ask(alloc, &self.store, words),
            _ => {
                self.fits = false;
                call(alloc, &mut self.store, words)
            }
        }
    }
}
