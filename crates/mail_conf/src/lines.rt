//! One line of the settings.
ghost use Rattle.std.specs.Prelude.{map};
ghost use Rattle.ftn_addr.specs.Address.{address};
ghost use Rattle.ftn_addr.specs.Outcomes.{Gives};
ghost use Rattle.mail_conf.specs.Drafted.{drafted};
ghost use Rattle.mail_conf.specs.Line.{line_taken, word_taken};

use crate::ConfCause;
use crate::draft::{Draft, take_list, take_number, take_path, take_text};
use crate::values::before_comment;
use crate::words::{is_passed_over, list_word, number_word, path_word, text_word};
use ftn_addr::{Addr, first_word, words};
use std::alloc::Global;

/// Takes a line by its first word. The others come as words and as they stand.
fn take_word(
    alloc: Global,
    home: &Addr,
    draft: &mut Draft,
    word: &[u8],
    words: &[&[u8]],
    rest: &[u8],
) -> Result<(), ConfCause>
    ensures { Gives ConfCause.NoMemory (λ _. drafted draft.new) result
        (word_taken (address home.now) word.now (map (λ word. word.now) words.now) rest.now (drafted draft.old)) }
{
    if let Some(word) = text_word(word) {
        return take_text(alloc, draft, word, rest);
    }
    if let Some(word) = path_word(word) {
        return take_path(alloc, draft, word, words);
    }
    if let Some(word) = number_word(word) {
        return take_number(draft, word, words);
    }
    if let Some(word) = list_word(word) {
        return take_list(alloc, home, draft, word, words);
    }
    if is_passed_over(word) {
        Ok(())
    } else {
        Err(ConfCause::UnknownWord)
    }
}

/// Takes a line.
#[tactic(auto, unfolding(crate::specs::Line::line_taken))]
pub(crate) fn take_line(
    alloc: Global,
    home: &Addr,
    draft: &mut Draft,
    line: &[u8],
) -> Result<(), ConfCause>
    ensures { Gives ConfCause.NoMemory (λ _. drafted draft.new) result
        (line_taken (address home.now) line.now (drafted draft.old)) }
{
    let content = before_comment(line);
    let (_, rest) = first_word(content);
    let words = words(alloc, content)?;
    match words.as_slice() {
        [] => Ok(()),
        [word, words @ ..] => take_word(alloc, home, draft, *word, words, rest),
    }
}
