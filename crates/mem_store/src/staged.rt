//! Files that were staged.
ghost use Rattle.std.specs.Prelude.{◌≡◌, ◌==◌, ℕ, List, position, IfOk};
ghost use Rattle.node_model.specs.Stocks.{StagedOf};

use ftn_addr::{Bytes, NoMemory};
use std::alloc::Global;
use std::marker::Model;

/// A file that was put under a queue number, and isn't queued yet.
#[derive(Debug, Drop)]
pub struct StagedFile {
    pub number: u32,
    pub bytes: Bytes,
}

impl Model for StagedFile {
    ghost use Rattle.std.specs.Prelude.{ℕ, List};
    ghost use Rattle.node_model.specs.Stocks.{StagedOf};

    ghost Value = { StagedOf (List ℕ) };

    ghost view = { λ s. record { number = s.number; content = s.bytes.list } };
}

impl StagedFile {
    pub fn new(alloc: Global, number: u32, bytes: &[u8]) -> Result<StagedFile, NoMemory>
        ensures { IfOk result (λ file. file ≡ record { number = number; content = bytes.now }) }
    {
        Ok(StagedFile {
            number,
            bytes: Bytes::from_slice(alloc, bytes)?,
        })
    }

    pub fn number(&self) -> u32
        ensures { result ≡ self.now.number }
    {
        self.number
    }

    pub fn content(&self) -> &[u8]
        ensures { result.now ≡ self.now.content }
    {
        self.bytes.as_slice()
    }
}

/// Where the first staged file with that number stands, if there is one.
pub fn place_staged(staged: &[StagedFile], number: u32) -> Option<usize>
    ensures { result ≡ position (λ (s : StagedOf (List ℕ)). s.number == number) staged.now }
{
    staged.iter().position(|file| file.number() == number)
}
