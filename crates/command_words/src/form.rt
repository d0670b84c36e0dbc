//! The forms of words.
ghost use Rattle.std.specs.Prelude.{◌≡◌, ◌∷◌, [], IfOk, IfSome, List, None, Ok, ℕ};
ghost use Rattle.command_words.specs.Forms.{Command, HasForm, IsPlain, command_of, texts};
ghost use Rattle.command_words.specs.Line.{IsLineOf};
ghost use Rattle.std.specs.List.{All};

use crate::line::{Line, split};
use crate::numbers::number_within;
use crate::plain::plain_texts;
use ftn_addr::{Bytes, NoMemory};
use std::alloc::Global;

/// The most bytes of a path.
const MOST_PATH: usize = 1024;

/// The most files of a trial.
const MOST_FILES: u32 = 2_000;

/// A command that holds one session.
#[derive(Clone, Copy, Debug)]
pub enum SessionForm<'a> {
    /// `answer`
    Answer,
    /// `call`, and the text of an address
    Call(&'a Bytes),
}

/// A command without a session.
#[derive(Clone, Copy, Debug)]
pub enum StillForm<'a> {
    /// `lookup`, and the text of an address
    Lookup(&'a Bytes),
    /// `compile`, and the path of a nodelist, of at most 1,024 bytes
    Compile(&'a Bytes),
    /// `list`
    List,
    /// `take`
    Take,
}

/// `trial`, which has neither a folder nor settings.
#[derive(Clone, Copy, Debug)]
pub struct TrialForm {
    /// How many files there are: 1 to 2,000.
    pub count: u32,
    /// The number from which all others are drawn.
    pub start: u32,
}

/// What the words ask for.
#[derive(Clone, Copy, Debug)]
pub enum Form<'a> {
    Session(SessionForm<'a>),
    Still(StillForm<'a>),
    /// `serve`
    Serve,
    Trial(TrialForm),
}

// The form of a command alone.
fn form_of_one<'a>(command: &[u8]) -> Option<Form<'a>>
    ensures some { IfSome result (λ form. HasForm (command.now ∷ []) (command_of form)) }
    ensures none { result ≡ None → (asked : Command) → HasForm (command.now ∷ []) asked → ⊥ }
{
    if command == b"answer".as_slice() {
        Some(Form::Session(SessionForm::Answer))
    } else if command == b"list".as_slice() {
        Some(Form::Still(StillForm::List))
    } else if command == b"take".as_slice() {
        Some(Form::Still(StillForm::Take))
    } else if command == b"serve".as_slice() {
        Some(Form::Serve)
    } else {
        None
    }
}

// The form of a command and a plain word.
fn form_of_two<'a>(command: &[u8], word: &'a Bytes) -> Option<Form<'a>>
    requires { IsPlain word.now.list }
    ensures some { IfSome result (λ form. HasForm (command.now ∷ word.now.list ∷ []) (command_of form)) }
    ensures none { result ≡ None → (asked : Command) → HasForm (command.now ∷ word.now.list ∷ []) asked → ⊥ }
{
    if command == b"call".as_slice() {
        Some(Form::Session(SessionForm::Call(word)))
    } else if command == b"lookup".as_slice() {
        Some(Form::Still(StillForm::Lookup(word)))
    } else if command == b"compile".as_slice() && word.len() <= MOST_PATH {
        Some(Form::Still(StillForm::Compile(word)))
    } else {
        None
    }
}

// The form of a command and two words.
fn form_of_three<'a>(command: &[u8], first: &Bytes, second: &Bytes) -> Option<Form<'a>>
    ensures some { IfSome result (λ form. HasForm (command.now ∷ first.now.list ∷ second.now.list ∷ []) (command_of form)) }
    ensures none { result ≡ None → (asked : Command) → HasForm (command.now ∷ first.now.list ∷ second.now.list ∷ []) asked → ⊥ }
{
    if command != b"trial".as_slice() {
        return None;
    }
    let count = number_within(first.as_slice(), 1, MOST_FILES)?;
    let start = number_within(second.as_slice(), 0, u32::MAX)?;
    Some(Form::Trial(TrialForm { count, start }))
}

// The form of a command and as many values behind it, which are the words.
fn form_of_line<'a>(line: Line<'_>, words: &'a [Bytes]) -> Option<Form<'a>>
    requires line { IsLineOf (texts words.now) line }
    requires plain { All IsPlain (texts words.now) }
    ensures some { IfSome result (λ form. HasForm (texts words.now) (command_of form)) }
    ensures none { result ≡ None → (asked : Command) → HasForm (texts words.now) asked → ⊥ }
{
    match line.values {
        0 => form_of_one(line.command.as_bytes()),
        1 => form_of_two(line.command.as_bytes(), &words[1]),
        2 => form_of_three(line.command.as_bytes(), &words[1], &words[2]),
        _ => None,
    }
}

/// The form that the words have, or None where they have none.
///
/// # Errors
/// Want of memory.
pub fn read_form<'a>(alloc: Global, words: &'a [Bytes]) -> Result<Option<Form<'a>>, NoMemory>
    ensures some { IfOk result (λ found. IfSome found (λ form. HasForm (texts words.now) (command_of form))) }
    ensures none { result ≡ Ok None → (command : Command) → HasForm (texts words.now) command → ⊥ }
{
    let Some(plain) = plain_texts(alloc, words)? else {
        return Ok(None);
    };
    if plain.is_empty() {
        return Ok(None);
    }
    match split(alloc, plain.as_slice())? {
        Some(line) => Ok(form_of_line(line, words)),
        None => Ok(None),
    }
}

/// Words have at most one form.
pub fn one_form()
    ensures { (words : List (List ℕ)) (a b : Command) → HasForm words a → HasForm words b → a ≡ b }
{}
