//! What a script says of the calls of the system, and what was seen of them.
use std::cell::Cell;
use std::io::ErrorKind;
use test_files::Journal;

/// What calls answer, word by word, and the calls that were seen.
#[derive(Drop)]
pub struct Seen<'t> {
    journal: Cell<Journal>,
    pub reads: Cell<&'t str>,
    pub holds: Cell<&'t str>,
    pub writes: Cell<&'t str>,
    pub waits: Cell<&'t str>,
    pub binds: Cell<&'t str>,
    pub accepts: Cell<&'t str>,
    pub dials: Cell<&'t str>,
    pub removes: Cell<&'t str>,
    /// The addresses of any host, all at once.
    pub hosts: Cell<&'t str>,
    /// The clock, in milliseconds, where it can be read.
    pub clock: Cell<Option<u64>>,
    /// The port that is told as `P`, where it isn't 0.
    pub port: Cell<u16>,
}

impl<'t> Seen<'t> {
    pub fn new() -> Seen<'t> {
        Seen {
            journal: Cell::new(Journal::new()),
            reads: Cell::new(""),
            holds: Cell::new(""),
            writes: Cell::new(""),
            waits: Cell::new(""),
            binds: Cell::new(""),
            accepts: Cell::new(""),
            dials: Cell::new(""),
            removes: Cell::new(""),
            hosts: Cell::new(""),
            clock: Cell::new(Some(0)),
            port: Cell::new(0),
        }
    }

    /// What calls of that kind answer.
    pub fn answers_of(&self, kind: &str) -> Option<&Cell<&'t str>> {
        match kind {
            "reads" => Some(&self.reads),
            "holds" => Some(&self.holds),
            "writes" => Some(&self.writes),
            "waits" => Some(&self.waits),
            "binds" => Some(&self.binds),
            "accepts" => Some(&self.accepts),
            "dials" => Some(&self.dials),
            "removes" => Some(&self.removes),
            "hosts" => Some(&self.hosts),
            _ => None,
        }
    }

    /// One call more.
    pub fn note(&self, call: &str) {
        let mut journal = self.journal.get();
        journal.push(call);
        journal.push(",");
        self.journal.set(journal);
    }

    /// The calls since it was asked last, each with a comma behind it.
    pub fn take(&self) -> Journal {
        self.journal.replace(Journal::new())
    }

    /// So many milliseconds go by.
    pub fn pass(&self, milliseconds: u64) {
        if let Some(now) = self.clock.get() {
            self.clock.set(Some(now.saturating_add(milliseconds)));
        }
    }
}

/// The next of some words; another one where none is left.
pub fn next<'t>(words: &Cell<&'t str>, otherwise: &'t str) -> &'t str {
    let all = words.get();
    let (first, rest) = all.split_once(' ').unwrap_or((all, ""));
    words.set(rest);
    if first.is_empty() { otherwise } else { first }
}

/// The fault of which a word tells.
pub fn fault(word: &str) -> Option<ErrorKind> {
    match word {
        "block" => Some(ErrorKind::WouldBlock),
        "interrupted" => Some(ErrorKind::Interrupted),
        "broken" => Some(ErrorKind::BrokenPipe),
        "denied" => Some(ErrorKind::PermissionDenied),
        "aborted" => Some(ErrorKind::ConnectionAborted),
        "refused" => Some(ErrorKind::ConnectionRefused),
        "silent" | "hanging" => Some(ErrorKind::TimedOut),
        _ => None,
    }
}
