//! The offer of a challenge.
ghost use Rattle.std.specs.Prelude.{◌≡◌, ◌≤◌, ◌==◌, ◌++◌, length, option_map, position, IfSome, IfOk, OnOk, OnErr};
ghost use Rattle.cram_md5.specs.Offer.{bytes_of, cram_word, names_md5, offer_of, offer_of_word, offer_spelling};
ghost use Rattle.cram_md5.specs.Views.{offered};

use ftn_addr::{Bytes, NoMemory, is_same_word};
use hex::FromHexError;
use std::alloc::Global;

/// What the text of an M_NUL offers (FTS-1027).
#[derive(Debug, Drop)]
pub enum Offer {
    /// No challenge: the text isn't one of options, or none of its words is an offer.
    Absent,
    /// A challenge of 1 to 64 bytes, to be answered by MD5.
    Md5(Bytes),
    /// A challenge, but MD5 isn't among its algorithms.
    Foreign,
    /// The word of an offer without a challenge of 1 to 64 whole bytes.
    Bad,
}

/// The first word that begins with `CRAM-`.
fn cram_word(options: &[u8]) -> Option<&[u8]>
    ensures word { option_map (λ word. word.now) result ≡ cram_word options.now }
    ensures length { IfSome result (λ word. 5 ≤ length word.now) }
{
    options
        .split(|byte| *byte == b' ')
        .find(|word| word.starts_with(b"CRAM-"))
}

fn names_md5(names: &[u8]) -> bool
    ensures { result ≡ names_md5 names.now }
{
    names
        .split(|byte| *byte == b'/')
        .any(|name| is_same_word(name, b"MD5"))
}

/// The 1 to 64 bytes that hexadecimal digits spell.
fn challenge_of(alloc: Global, digits: &[u8]) -> Result<Option<Bytes>, NoMemory>
    ensures { IfOk result (λ bytes. option_map (λ list. list.list) bytes ≡ bytes_of digits.now) }
{
    match hex::decode(alloc, digits) {
        Ok(bytes) if !bytes.is_empty() && bytes.len() <= 64 => {
            Ok(Some(Bytes::from_slice(alloc, bytes.as_slice())?))
        }
        Err(FromHexError::OutOfMemory) => Err(NoMemory),
        _ => Ok(None),
    }
}

fn first_dash(word: &[u8]) -> Option<usize>
    ensures { result ≡ position (λ byte. byte == 45) word.now }
{
    word.iter().position(|byte| *byte == b'-')
}

/// The offer of the names before the first `-` and the digits behind it.
#[tactic(auto, unfolding(crate::specs::Offer::offer_of_word))]
fn offer_of_word(alloc: Global, word: &[u8]) -> Result<Offer, NoMemory>
    ensures { IfOk result (λ offer. offered offer ≡ offer_of_word word.now) }
{
    let Some(end) = first_dash(word) else {
        return Ok(Offer::Bad);
    };
    match challenge_of(alloc, &word[end + 1..])? {
        None => Ok(Offer::Bad),
        Some(challenge) if names_md5(&word[..end]) => Ok(Offer::Md5(challenge)),
        Some(_) => Ok(Offer::Foreign),
    }
}

/// Reads the offer in the text of an M_NUL. Its only error is want of memory.
pub fn read_offer(alloc: Global, text: &[u8]) -> Result<Offer, NoMemory>
    ensures { IfOk result (λ offer. offered offer ≡ offer_of text.now) }
{
    if !text.starts_with(b"OPT ") {
        return Ok(Offer::Absent);
    }
    match cram_word(&text[4..]) {
        Some(word) => offer_of_word(alloc, &word[5..]),
        None => Ok(Offer::Absent),
    }
}

/// Adds the word of an offer at the end of `out`: `CRAM-MD5-` and the challenge in 32 lower case digits.
pub fn offer_text(alloc: Global, challenge: &[u8; 16], out: &mut Bytes) -> Result<(), NoMemory>
    ensures ok { OnOk result (out.new.list ≡ out.old.list ++ offer_spelling challenge.now) }
    ensures err { OnErr result (out.new.list ≡ out.old.list) }
{
    let digits = hex::encode(alloc, challenge.as_slice())?;
    out.reserve(9 + digits.len())?;
    out.push_slice(b"CRAM-MD5-")?;
    out.push_slice(digits.as_bytes())
}
