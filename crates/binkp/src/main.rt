//! `binkp DIR WORDS` is the mailer over the folder DIR: it serves until it is told to stop, answers a caller on standard input and
//! output, as under inetd, or calls a node at its host. What comes of it goes to standard error.
//!
//! `binkp trial COUNT START` tries two nodes against one another in memory, and has no folder.
//!
//! `binkp --help` and `binkp --version` tell of the program itself.
//!
//! All else that it does is [`run_program`](binkp_mailer::run_program)'s, with the system's folder, lines and clock, and challenges
//! of the system's randomness. `main` hands them on, and holds the system's lock on the folder, so that one program at a time works
//! on it.
#![tactic(auto)]

ghost use Rattle.std.specs.Prelude.{IfOk};
ghost use Rattle.binkp_mailer.specs.OverLines.{IsFresh};
ghost use Rattle.real_edge.specs.SystemLines.{system_lines};

mod closed;
mod lock;
mod outbound;
mod told;

use binkp_link::Dice;
use binkp_mailer::{Ended, refuse_for_memory, run_program};
use closed::hold_closed;
use command_words::{Form, read_form};
use ftn_addr::{Bytes, NoMemory};
use lock::lock;
use outbound::look_for_outbound;
use real_edge::{RealFolder, StdSink, SystemClock, SystemDice, SystemLines, standard_line};
use std::alloc::Global;
use std::process::ExitCode;
use std::rt::{Env, Stdin, Stdout};
use std::sync::Wait;
use std::time::Duration;
use std::{env, io};
use told::tell;

/// What the exit status is where nothing was done, since the system gives no random bytes for a challenge.
const NO_CHALLENGE: u8 = 100;

/// What the exit status is where nothing was done, since the folder is another program's, or the system refused it or the line.
const NOT_STARTED: u8 = 101;

/// What the exit status is where the program was told, and where standard output refused it.
const TOLD: u8 = 0;

const OUT_FAULT: u8 = 16;

/// The folder, and the words behind it. A trial has no folder: all words are its own.
#[derive(Drop)]
struct Given {
    folder: Option<String>,
    words: Vec<Bytes>,
}

/// The words that the program is given, but for so many of the first: its own name is the first of all.
fn words_behind<R: Env + AllocGlobal>(rt: &R, count: usize) -> Result<Vec<Bytes>, NoMemory> {
    let Ok(given) = env::args(rt) else {
        return Err(NoMemory);
    };
    let mut words = Vec::new(rt.alloc());
    for word in given.skip(count) {
        words.push(Bytes::from_slice(rt.alloc(), word.as_bytes())?)?;
    }
    Ok(words)
}

/// The word behind the program's name.
fn first_word<R: Env + AllocGlobal>(rt: &R) -> Result<Option<String>, NoMemory> {
    match env::args(rt) {
        Ok(given) => Ok(given.skip(1).next()),
        Err(_) => Err(NoMemory),
    }
}

/// Whether the words are those of a trial.
fn is_trial(alloc: Global, words: &[Bytes]) -> Result<bool, NoMemory> {
    let form = read_form(alloc, words)?;
    Ok(matches!(form, Some(Form::Trial(_))))
}

/// The folder and the words that the program is given.
fn read_given<R: Env + AllocGlobal>(rt: &R) -> Result<Given, NoMemory> {
    let words = words_behind(rt, 1)?;
    if is_trial(rt.alloc(), words.as_slice())? {
        return Ok(Given {
            folder: None,
            words,
        });
    }
    Ok(Given {
        folder: first_word(rt)?,
        words: words_behind(rt, 2)?,
    })
}

/// Whether that is the first word behind the folder.
fn is_word(words: &[Bytes], word: &[u8]) -> bool {
    words.first().is_some_and(|first| first.as_slice() == word)
}

/// For how long a node that serves waits for a caller before it looks whom to call: 2.5 to 5 seconds, drawn at each start, so that two
/// nodes that once called each other at the same moment don't go on to do so.
fn patience(dice: &mut SystemDice) -> Duration {
    let [high, low, ..] = dice.sixteen();
    let drawn = u16::from_be_bytes([high, low]);
    Duration::from_millis(2_500 + u64::from(drawn % 2_500))
}

/// The lines of the system. The standard streams are one of them where a caller is answered there, and nobody else needs them.
fn lines(
    rt: &HostRuntime,
    path: &str,
    words: &[Bytes],
    patience: Duration,
) -> io::Result<SystemLines<HostRuntime, Stdin, Stdout>>
    ensures { IfOk result (λ lines. IsFresh (system_lines lines.counts)) }
{
    let stop_file = format!(in rt.alloc(); "{path}/stop")?;
    let standard = if is_word(words, b"answer") {
        Some(standard_line(rt, rt.stdin(), rt.stdout())?)
    } else {
        None
    };
    Ok(SystemLines::new(rt.clone()?, standard, stop_file, patience))
}

/// Says that the system refused what a call begins with, or that there is no memory for it.
fn not_started(rt: &HostRuntime, error: io::Error) -> Ended {
    if error.kind() == io::ErrorKind::OutOfMemory {
        return refuse_for_memory(rt.alloc(), &mut StdSink::new(rt.stderr()));
    }
    let _ = eprintln!(rt; "binkp: {error}");
    Ended {
        exit: NOT_STARTED,
        told: None,
    }
}

/// Makes the call over the folder, and says why the system refused a call, where one was refused, also where that
/// stopped nothing.
fn call<W: Wait>(
    wait: &W,
    rt: &HostRuntime,
    folder: RealFolder<HostRuntime>,
    path: &str,
    words: &[Bytes],
    dice: &mut SystemDice,
) -> Ended {
    let mut folder = folder;
    let mut lines = match lines(rt, path, words, patience(dice)) {
        Ok(lines) => lines,
        Err(error) => return not_started(rt, error),
    };
    if words.len() == 1 && is_word(words, b"serve") {
        look_for_outbound(rt, &mut folder);
    }
    let mut out = StdSink::new(rt.stderr());
    let mut clock = SystemClock::new(rt);
    let (ended, folder) = run_program(
        wait,
        rt.alloc(),
        words,
        folder,
        &mut lines,
        &mut clock,
        dice,
        &mut out,
    );
    if let Some(error) = folder.last_error() {
        // Where nobody can be told, the exit status tells.
        let _ = eprintln!(rt; "binkp: {error}");
    }
    ended
}

/// Makes the call that the words ask for over the folder of that path, or says that there is no memory for it.
fn call_in<W: Wait>(
    wait: &W,
    rt: &HostRuntime,
    path: &str,
    words: &[Bytes],
    dice: &mut SystemDice,
) -> Ended {
    let Ok(runtime) = rt.clone() else {
        return refuse_for_memory(rt.alloc(), &mut StdSink::new(rt.stderr()));
    };
    match RealFolder::new(runtime, path) {
        Ok(folder) => call(wait, rt, folder, path, words, dice),
        Err(NoMemory) => refuse_for_memory(rt.alloc(), &mut StdSink::new(rt.stderr())),
    }
}

/// The exit status of a call over the folder, which is locked as long as that lasts. Where no folder is given the words are a trial's, or
/// there are none and they are refused: no folder is touched then, and none is locked.
fn program<W: Wait>(wait: &W, rt: &HostRuntime, given: &Given) -> u8 {
    let _streams = match hold_closed(rt) {
        Ok(held) => held,
        Err(error) => return not_started(rt, error).exit,
    };
    let mut dice = match SystemDice::new(rt) {
        Ok(dice) => dice,
        Err(error) => {
            let _ = eprintln!(rt; "binkp: {error}");
            return NO_CHALLENGE;
        }
    };
    let locked = match &given.folder {
        Some(path) => lock(rt, path.as_str()),
        None => Ok(None),
    };
    let _held = match locked {
        Ok(held) => held,
        Err(fault) => {
            let _ = eprintln!(rt; "binkp: {fault}");
            return NOT_STARTED;
        }
    };
    let path = given.folder.as_deref().unwrap_or(".");
    let ended = call_in(wait, rt, path, given.words.as_slice(), &mut dice);
    if let Some(told) = ended.told {
        let _ = eprintln!(rt; "{told}");
    }
    ended.exit
}

/// The exit status where the only word asks what the program is, which is told before any folder is looked at.
fn tells(rt: &HostRuntime, given: &Given) -> Option<u8> {
    if !given.words.is_empty() {
        return None;
    }
    match tell(rt, given.folder.as_deref()?) {
        Ok(true) => Some(TOLD),
        Ok(false) => None,
        Err(_) => Some(OUT_FAULT),
    }
}

fn main(rt: HostRuntime) -> ExitCode {
    let exit = match read_given(&rt) {
        Ok(given) => match tells(&rt, &given) {
            Some(exit) => exit,
            None => program(&rt, &rt, &given),
        },
        Err(NoMemory) => refuse_for_memory(rt.alloc(), &mut StdSink::new(rt.stderr())).exit,
    };
    ExitCode::from(exit)
}
