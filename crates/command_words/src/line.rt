//! Plain words, as `clap` splits them.
ghost use Rattle.std.specs.Prelude.{◌≡◌, ◌≢◌, [], IfErr, IfOk, IsSomeAnd, map};
ghost use Rattle.std.specs.List.{All};
ghost use Rattle.clap.specs.Words.{kind_of};
ghost use Rattle.command_words.specs.Forms.{IsPlain};
ghost use Rattle.command_words.specs.Line.{IsLineOf, IsSplitOf};

use clap::error::ErrorKind;
use clap::{Arg, ArgAction, ArgMatches, Command, Error};
use ftn_addr::NoMemory;
use std::alloc::Global;

/// A command, and how many values stand behind it.
#[derive(Clone, Copy, Debug)]
pub struct Line<'a> {
    /// The first word.
    pub command: &'a str,
    /// How many words stand behind it.
    pub values: usize,
}

// What `clap` finds in plain words: a command, and the values behind it.
fn parse<'a>(alloc: Global, words: &'a [&'a str]) -> Result<ArgMatches<'a>, Error>
    requires some { words.now ≢ [] }
    requires plain { All IsPlain (map (λ word. word.now) words.now) }
    ensures ok { IfOk result (IsSplitOf (map (λ word. word.now) words.entry.now)) }
    ensures err { IfErr result (λ error. kind_of error ≡ ErrorKind.OutOfMemory) }
{
    let command = Arg::new(alloc, "command").required(true);
    let values = Arg::new(alloc, "values").action(ArgAction::Append);
    let parser = Command::new(alloc, "binkp")
        .no_binary_name(true)
        .disable_help_flag(true)
        .arg(command)?
        .arg(values)?;
    parser.try_get_matches_from(words)
}

/// The command in plain words and how many values stand behind it, or None where `clap` refuses them for another cause than
/// memory, which it never does.
///
/// # Errors
/// Want of memory.
pub fn split<'a>(alloc: Global, words: &'a [&'a str]) -> Result<Option<Line<'a>>, NoMemory>
    requires some { words.now ≢ [] }
    requires plain { All IsPlain (map (λ word. word.now) words.now) }
    ensures { IfOk result (λ found. IsSomeAnd found (IsLineOf (map (λ word. word.now) words.entry.now))) }
{
    match parse(alloc, words) {
        Ok(found) => {
            let command = found.get_str("command");
            let values = found.get_strs("values").map_or(0, |values| values.len());
            Ok(command.map(|command| Line { command, values }))
        }
        Err(error) => match error.kind() {
            ErrorKind::OutOfMemory => Err(NoMemory),
            _ => Ok(None),
        },
    }
}
