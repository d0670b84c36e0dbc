//! The values of a line: texts, paths and numbers.
ghost use Rattle.std.specs.Prelude.{◌≡◌, ◌≤◌, ◌==◌, map, position, IfOk};
ghost use Rattle.ftn_addr.specs.Outcomes.{Gives, GivesExactly};
ghost use Rattle.mail_conf.specs.Values.{before_comment, number_in, number_once, once, text_of, unquoted, word_at, word_once};

use crate::ConfCause;
use ftn_addr::{Bytes, read_digits, trimmed};
use std::alloc::Global;

fn comment_mark(line: &[u8]) -> Option<usize>
    ensures { result ≡ position (λ byte. byte == 35) line.now }
{
    line.iter().position(|byte| *byte == b'#')
}

/// A line without its comment, which begins at the first `#`.
pub(crate) fn before_comment(line: &[u8]) -> &[u8]
    ensures { result.now ≡ before_comment line.now }
{
    match comment_mark(line) {
        Some(mark) => &line[..mark],
        None => line,
    }
}

/// A text without the quotes around it.
fn unquoted(text: &[u8]) -> &[u8]
    ensures { result.now ≡ unquoted text.now }
{
    match text {
        [b'"', inner @ .., b'"'] => inner,
        _ => text,
    }
}

/// The word at a place, counted from 0.
#[tactic(auto, unfolding(crate::specs::Values::word_at))]
pub(crate) fn word_at<'a>(words: &[&'a [u8]], i: usize) -> Result<&'a [u8], ConfCause>
    ensures { GivesExactly (λ word. word.now) result (word_at (map (λ word. word.now) words.now) i) }
{
    match words.get(i) {
        Some(word) => Ok(*word),
        None => Err(ConfCause::MissingWord),
    }
}

/// Refuses what is set already.
pub(crate) fn once(given: bool) -> Result<(), ConfCause>
    ensures { GivesExactly (λ x. x) result (once given) }
{
    if given { Err(ConfCause::Twice) } else { Ok(()) }
}

/// The text of a line whose word is set once.
#[tactic(auto, unfolding(crate::specs::Values::text_of))]
pub(crate) fn text_of(alloc: Global, given: bool, rest: &[u8]) -> Result<Bytes, ConfCause>
    ensures { Gives ConfCause.NoMemory (λ text. text.list) result (text_of given rest.now) }
{
    let text = trimmed(rest);
    if text.is_empty() {
        return Err(ConfCause::MissingWord);
    }
    once(given)?;
    Ok(Bytes::from_slice(alloc, unquoted(text))?)
}

/// The first word of a line whose word is set once.
#[tactic(auto, unfolding(crate::specs::Values::word_once))]
pub(crate) fn word_once(alloc: Global, given: bool, words: &[&[u8]]) -> Result<Bytes, ConfCause>
    ensures { Gives ConfCause.NoMemory (λ word. word.list) result (word_once given (map (λ word. word.now) words.now)) }
{
    let word = word_at(words, 0)?;
    once(given)?;
    Ok(Bytes::from_slice(alloc, word)?)
}

/// A number from `low` to `high`.
#[tactic(auto, unfolding(crate::specs::Values::number_in))]
pub(crate) fn number_in(digits: &[u8], low: u64, high: u64) -> Result<u64, ConfCause>
    ensures gives { GivesExactly (λ number. number) result (number_in digits.now low high) }
    ensures within { IfOk result (λ number. number ≤ high) }
{
    match read_digits(digits) {
        Some(number) if low <= number && number <= high => Ok(number),
        _ => Err(ConfCause::BadNumber),
    }
}

/// The number of a line whose word is set once.
#[tactic(auto, unfolding(crate::specs::Values::number_once))]
pub(crate) fn number_once(
    given: bool,
    words: &[&[u8]],
    low: u64,
    high: u64,
) -> Result<u64, ConfCause>
    ensures gives { GivesExactly (λ number. number) result
        (number_once given (map (λ word. word.now) words.now) low high) }
    ensures within { IfOk result (λ number. number ≤ high) }
{
    let digits = word_at(words, 0)?;
    once(given)?;
    number_in(digits, low, high)
}
