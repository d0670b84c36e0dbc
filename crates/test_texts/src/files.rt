//! Names, the words of a command, flow files and file requests.
use crate::shown::{behind_bars, lists, or_none, quoted};
use anyhow::Result;
use command_words::{Form, SessionForm, StillForm, TrialForm, read_form};
use disk_model::Name;
use file_request::{Share, answer_request};
use flow_file::{FlowLine, read_flow};
use ftn_addr::{Bytes, NoMemory};
use node_model::{numbered_name, plain_name};
use std::alloc::Global;
use test_script::{number, shown};

/// A received name made plain.
pub fn plain(alloc: Global, name: &[u8]) -> Result<String> {
    let plain = plain_name(alloc, name)?;
    quoted(alloc, plain.as_slice())
}

/// The name behind the number of its receipt, which is the first word.
pub fn numbered(alloc: Global, words: &[&str], name: &[u8]) -> Result<String> {
    let receipt = u32::try_from(number(words, 1)?)?;
    let numbered = numbered_name(alloc, receipt, name)?;
    quoted(alloc, numbered.as_slice())
}

/// The name of an own file that a text is.
pub fn own_name(alloc: Global, text: &[u8]) -> Result<String> {
    match Name::new(text) {
        Some(name) => quoted(alloc, name.as_slice()),
        None => Ok(String::from_str(alloc, "none")?),
    }
}

// A command, and the word behind it.
fn worded(alloc: Global, command: &str, word: &[u8]) -> Result<String> {
    let word = shown(alloc, word)?;
    Ok(format!(in alloc; "{command} \"{word}\"")?)
}

// A trial, and the numbers behind it.
fn numbered_trial(alloc: Global, form: TrialForm) -> Result<String> {
    let TrialForm { count, start } = form;
    Ok(format!(in alloc; "trial {count} {start}")?)
}

// A command, and what stands behind it.
fn told(alloc: Global, form: Form<'_>) -> Result<String> {
    match form {
        Form::Session(SessionForm::Answer) => worded(alloc, "answer", &[]),
        Form::Session(SessionForm::Call(text)) => worded(alloc, "call", text.as_slice()),
        Form::Still(StillForm::Lookup(text)) => worded(alloc, "lookup", text.as_slice()),
        Form::Still(StillForm::Compile(path)) => worded(alloc, "compile", path.as_slice()),
        Form::Still(StillForm::List) => worded(alloc, "list", &[]),
        Form::Still(StillForm::Take) => worded(alloc, "take", &[]),
        Form::Serve => worded(alloc, "serve", &[]),
        Form::Trial(form) => numbered_trial(alloc, form),
    }
}

/// The command that words behind bars are, and what stands behind it.
pub fn command(alloc: Global, text: &[u8]) -> Result<String> {
    let words = behind_bars(alloc, text)?;
    match read_form(alloc, words.as_slice())? {
        Some(form) => told(alloc, form),
        None => worded(alloc, "none", &[]),
    }
}

fn push_flow(alloc: Global, line: &FlowLine, out: &mut String) -> Result<(), NoMemory> {
    let text = match line {
        FlowLine::Send(action, path) => {
            let path = shown(alloc, path.as_slice())?;
            format!(in alloc; "[{action:?} {path}]")?
        }
        FlowLine::Passed => String::from_str(alloc, "[Passed]")?,
    };
    out.push_str(text.as_str())?;
    Ok(())
}

/// What each line of a flow file asks for.
pub fn flow(alloc: Global, text: &[u8]) -> Result<String> {
    let lines = read_flow(alloc, text)?;
    let mut out = String::new(alloc);
    for line in &lines {
        push_flow(alloc, line, &mut out)?;
    }
    Ok(or_none(alloc, out)?)
}

/// A folder, and behind each bar the name of a file.
pub fn share_of(alloc: Global, text: &[u8]) -> Result<Share, NoMemory> {
    let folder = text.split(|byte| *byte == b'|').next().unwrap_or(text);
    let folder = Bytes::from_slice(alloc, folder)?;
    Ok(Share {
        folder,
        names: behind_bars(alloc, text)?,
    })
}

/// The files that a request gets, and the count of lines that get none.
pub fn request(alloc: Global, text: &[u8], shares: &[Share]) -> Result<String> {
    let answer = answer_request(alloc, text, shares)?;
    let (files, passed) = (lists(alloc, answer.files.as_slice())?, answer.passed);
    let count = answer.files.len();
    Ok(format!(in alloc; "{files} {count} found {passed} passed")?)
}
