//! A file's name, size, time and offset as words.
ghost use Rattle.std.specs.Prelude.{◌≡◌, ◌<◌, map};
ghost use Rattle.ftn_addr.specs.Content.{Content};
ghost use Rattle.ftn_addr.specs.Key.{key_of};
ghost use Rattle.ftn_addr.specs.Outcomes.{Gives, GivesExactly};
ghost use Rattle.binkp_args.specs.File.{word_at, number_at, name_of, key_words, offset_or_0, not_large, place_in, file_of, offered_of, wanted_of};

use crate::fault::ArgFault;
use crate::names::unescape;
use ftn_addr::{Bytes, FileKey, MAX_NAME, MAX_SIZE, read_digits};
use std::alloc::Global;

/// The nth word, counted from 1.
#[tactic(auto, unfolding(crate::specs::File::word_at))]
fn word_at<'a>(n: u32, words: &[&'a [u8]]) -> Result<&'a [u8], ArgFault>
    requires { 0 < n }
    ensures { GivesExactly (λ word. word.now) result (word_at n (map (λ w. w.now) words.now)) }
{
    match words.get(n as usize - 1) {
        Some(word) => Ok(*word),
        None => Err(ArgFault::MissingWord(n)),
    }
}

#[tactic(auto, unfolding(crate::specs::File::number_at))]
fn number_at(n: u32, words: &[&[u8]]) -> Result<u64, ArgFault>
    requires { 0 < n }
    ensures { GivesExactly (λ number. number) result (number_at n (map (λ w. w.now) words.now)) }
{
    let digits = word_at(n, words)?;
    match read_digits(digits) {
        Some(number) if number <= i64::MAX as u64 => Ok(number),
        _ => Err(ArgFault::BadNumber(n)),
    }
}

#[tactic(auto, unfolding(crate::specs::File::name_of))]
fn name_of(alloc: Global, words: &[&[u8]]) -> Result<Bytes, ArgFault>
    ensures { Gives ArgFault.NoMemory (λ (b : Content). b.list) result (name_of (map (λ w. w.now) words.now)) }
{
    let word = word_at(1, words)?;
    let mut name = Bytes::new(alloc);
    unescape(alloc, word, &mut name)?;
    if name.len() > MAX_NAME {
        return Err(ArgFault::LongName);
    }
    Ok(name)
}

#[tactic(auto, unfolding(crate::specs::File::key_words))]
fn key_words(alloc: Global, words: &[&[u8]]) -> Result<FileKey, ArgFault>
    ensures { Gives ArgFault.NoMemory key_of result (key_words (map (λ w. w.now) words.now)) }
{
    let name = name_of(alloc, words)?;
    let size = number_at(2, words)?;
    let time = number_at(3, words)?;
    Ok(FileKey { name, size, time })
}

#[tactic(auto, unfolding(crate::specs::File::offset_or_0))]
fn offset_or_0(words: &[&[u8]]) -> Result<u64, ArgFault>
    ensures { GivesExactly (λ offset. offset) result (offset_or_0 (map (λ w. w.now) words.now)) }
{
    match words.len() {
        0..=3 => Ok(0),
        _ => number_at(4, words),
    }
}

#[tactic(auto, unfolding(crate::specs::File::not_large))]
fn not_large(key: FileKey) -> Result<FileKey, ArgFault>
    ensures { GivesExactly key_of result (not_large (key_of key)) }
{
    if key.size > MAX_SIZE {
        return Err(ArgFault::TooLarge);
    }
    Ok(key)
}

#[tactic(auto, unfolding(crate::specs::File::place_in))]
fn place_in(key: FileKey, offset: u64) -> Result<(FileKey, u64), ArgFault>
    ensures { GivesExactly (λ place. (key_of place.0, place.1)) result (place_in (key_of key) offset) }
{
    let key = not_large(key)?;
    if offset > key.size {
        return Err(ArgFault::PastEnd);
    }
    Ok((key, offset))
}

/// The argument of M_GOT or M_SKIP.
#[tactic(auto, unfolding(crate::specs::File::file_of))]
pub(crate) fn file_of(alloc: Global, words: &[&[u8]]) -> Result<FileKey, ArgFault>
    ensures { Gives ArgFault.NoMemory key_of result (file_of (map (λ w. w.now) words.now)) }
{
    let key = key_words(alloc, words)?;
    not_large(key)
}

/// The argument of M_FILE, whose offset may be missing.
#[tactic(auto, unfolding(crate::specs::File::offered_of))]
pub(crate) fn offered_of(alloc: Global, words: &[&[u8]]) -> Result<(FileKey, u64), ArgFault>
    ensures { Gives ArgFault.NoMemory (λ place. (key_of place.0, place.1)) result (offered_of (map (λ w. w.now) words.now)) }
{
    let key = key_words(alloc, words)?;
    let offset = offset_or_0(words)?;
    place_in(key, offset)
}

/// The argument of M_GET.
#[tactic(auto, unfolding(crate::specs::File::wanted_of))]
pub(crate) fn wanted_of(alloc: Global, words: &[&[u8]]) -> Result<(FileKey, u64), ArgFault>
    ensures { Gives ArgFault.NoMemory (λ place. (key_of place.0, place.1)) result (wanted_of (map (λ w. w.now) words.now)) }
{
    let key = key_words(alloc, words)?;
    let offset = number_at(4, words)?;
    place_in(key, offset)
}
