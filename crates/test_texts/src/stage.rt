//! What the calls of a script stand on.
use crate::byte_lists::changes;
use crate::files::share_of;
use crate::ledger::folds;
use anyhow::Result;
use file_request::Share;
use ftn_addr::{Bytes, NoMemory};
use ledger_rec::Folded;
use std::alloc::Global;
use test_script::{behind, bytes, word};

/// The text so far, what may be requested, and a ledger.
#[derive(Drop)]
pub struct Stage {
    pub text: Bytes,
    pub shares: Vec<Share>,
    pub ledger: Folded,
}

impl Stage {
    /// No text, no shares and an empty ledger.
    pub fn new(alloc: Global) -> Stage {
        Stage {
            text: Bytes::new(alloc),
            shares: Vec::new(alloc),
            ledger: Folded::new(alloc),
        }
    }

    /// The text so far, with more at its end.
    pub fn text_with(&self, alloc: Global, more: &str) -> Result<Bytes, NoMemory> {
        let mut text = self.text.copy(alloc)?;
        text.push_slice(bytes(alloc, more)?.as_slice())?;
        Ok(text)
    }

    /// Adds what a line has to what the calls stand on, or changes it. Whether the line does so.
    pub fn adds(&mut self, alloc: Global, line: &str, words: &[&str]) -> Result<bool> {
        if word(words, 0) == "share" {
            let text = bytes(alloc, behind(line))?;
            self.shares.push(share_of(alloc, text.as_slice())?)?;
            return Ok(true);
        }
        Ok(changes(alloc, line, words, &mut self.text)? || folds(alloc, words, &mut self.ledger)?)
    }
}
