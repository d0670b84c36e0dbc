//! The files of a trial.
ghost use Rattle.std.specs.Prelude.{◌≡◌, ◌<◌, ◌%◌, length, map, IfOk, OnOk};
ghost use Rattle.ftn_addr.specs.Key.{key_of};
ghost use Rattle.ftn_addr.specs.Limits.{IsKey};
ghost use Rattle.node_trial.specs.Draws.{behind, draws};
ghost use Rattle.node_trial.specs.Files.{behind_file, file_at, file_text, name_of, sender_of};

use crate::generator::Generator;
use ftn_addr::{Bytes, FileKey, NoMemory};
use std::alloc::Global;

/// Sizes are below this one.
const SIZES: u32 = 10_000;

/// The time of the file before the first.
const TIME: u64 = 1_000_000_000;

/// At which node a file is queued for the other.
#[derive(Clone, Copy, Debug, PartialEq, Eq)]
pub enum Sender {
    First,
    Second,
}

/// A file of a trial.
#[derive(Debug, Drop)]
pub struct TrialFile {
    pub key: FileKey,
    /// As many as its key says.
    pub bytes: Bytes,
    pub sender: Sender,
}

// `f`, eight hexadecimal digits, `.dat`.
fn name_of(alloc: Global, number: u32) -> Result<Bytes, NoMemory>
    ensures name { IfOk result (λ name. name.list ≡ name_of number) }
    ensures length { IfOk result (λ name. length name.list ≡ 13) }
{
    let mut digits = [0; 8];
    let _ = hex::encode_to_slice(number.to_be_bytes().as_slice(), &mut digits);
    let mut name = Bytes::from_slice(alloc, b"f")?;
    name.push_slice(&digits)?;
    name.push_slice(b".dat")?;
    Ok(name)
}

fn sender_of(number: u32) -> Sender
    ensures { result ≡ sender_of number }
{
    if number % 2 == 1 {
        Sender::First
    } else {
        Sender::Second
    }
}

impl Generator {
    /// The bytes of a file of that size, each drawn.
    fn draw_bytes(&mut self, alloc: Global, size: u32) -> Result<Bytes, NoMemory>
        ensures bytes { IfOk result (λ bytes. bytes.list ≡ map (λ d. d % 256) (draws size self.old)) }
        ensures state { OnOk result (self.new ≡ behind size self.old) }
    {
        let mut bytes = Bytes::new(alloc);
        bytes.reserve(size as usize)?;
        for place in 0..size {
            let byte = (self.draw() % 256) as u8;
            bytes.push_slice(&[byte])?;
        }
        Ok(bytes)
    }

    /// The trial's file of that number: its size and its bytes are drawn.
    pub fn draw_file(&mut self, alloc: Global, number: u32) -> Result<TrialFile, NoMemory>
        ensures file { IfOk result (λ file. file_text file ≡ file_at number self.old) }
        ensures state { OnOk result (self.new ≡ behind_file self.old) }
        ensures size { IfOk result (λ file. file.key.size ≡ length file.bytes.list) }
        ensures small { IfOk result (λ file. file.key.size < 10000) }
        ensures limits { IfOk result (λ file. IsKey (key_of file.key)) }
    {
        let size = self.draw() % SIZES;
        let bytes = self.draw_bytes(alloc, size)?;
        let name = name_of(alloc, number)?;
        Ok(TrialFile {
            key: FileKey {
                name,
                size: u64::from(size),
                time: TIME + u64::from(number),
            },
            bytes,
            sender: sender_of(number),
        })
    }
}
