//! Words that may stand in a command line.
ghost use Rattle.std.specs.Prelude.{◌≡◌, IfOk, IfSome, None, Ok, map};
ghost use Rattle.std.specs.List.{All};
ghost use Rattle.command_words.specs.Forms.{IsPlain, texts};

use ftn_addr::{Bytes, NoMemory};
use std::alloc::Global;
use std::str;

// The text of a word, or None where it is empty, begins with `-` or isn't UTF-8.
fn plain_text(word: &[u8]) -> Option<&str>
    ensures some { IfSome result (λ text. (text.now ≡ word.entry.now) × IsPlain word.entry.now) }
    ensures none { result ≡ None → IsPlain word.entry.now → ⊥ }
{
    match word {
        [] => None,
        [b'-', ..] => None,
        _ => str::from_utf8(word).ok(),
    }
}

/// The texts of plain words, or None where a word isn't plain.
///
/// # Errors
/// Want of memory.
pub fn plain_texts<'a>(alloc: Global, words: &'a [Bytes]) -> Result<Option<Vec<&'a str>>, NoMemory>
    ensures some { IfOk result (λ found. IfSome found (λ list.
        (map (λ text. text.now) list.items ≡ texts words.entry.now) × All IsPlain (texts words.entry.now))) }
    ensures none { result ≡ Ok None → All IsPlain (texts words.entry.now) → ⊥ }
{
    let mut plain = Vec::new(alloc);
    for word in words {
        match plain_text(word.as_slice()) {
            Some(text) => plain.push(text)?,
            None => return Ok(None),
        }
    }
    Ok(Some(plain))
}
