//! The words of a line.
ghost use Rattle.std.specs.Prelude.{◌≡◌, map, position, IfOk};
ghost use Rattle.ftn_addr.specs.Blanks.{is_blank};
ghost use Rattle.ftn_addr.specs.Word.{first_word, words_of};

use crate::NoMemory;
use crate::blanks::{is_blank, without_front};
use std::alloc::Global;

/// What stands between runs of spaces and tabs.
pub fn words<'a>(alloc: Global, line: &'a [u8]) -> Result<Vec<&'a [u8]>, NoMemory>
    ensures { IfOk result (λ words. map (λ word. word.now) words.items ≡ words_of line.now) }
{
    let words = line
        .split(|byte| is_blank(*byte))
        .filter(|word| !word.is_empty())
        .collect(alloc)?;
    Ok(words)
}

fn first_blank(bytes: &[u8]) -> Option<usize>
    ensures { result ≡ position is_blank bytes.now }
{
    bytes.iter().position(|byte| is_blank(*byte))
}

/// The first word of a line, and what stands behind it. The word is empty where the line has none.
pub fn first_word(line: &[u8]) -> (&[u8], &[u8])
    ensures { (result.0.now, result.1.now) ≡ first_word line.now }
{
    let rest = without_front(line);
    match first_blank(rest) {
        Some(end) => rest.split_at(end),
        None => (rest, &[]),
    }
}
