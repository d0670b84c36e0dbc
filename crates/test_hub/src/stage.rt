//! What a script plays over: a store, or a hub that has it.
use crate::bare_store::BareStore;
use crate::seats::{Seats, into_store};
use anyhow::{Context, Result};
use test_script::{number, word, words_of};

#[derive(Drop)]
pub struct Stage {
    rt: HostRuntime,
    store: BareStore,
    /// The seats of the hub that has the store.
    seats: Option<Box<Seats>>,
}

impl Stage {
    /// A store with nothing in it.
    pub fn new(rt: HostRuntime) -> Result<Stage> {
        Ok(Stage {
            rt,
            store: BareStore::new(rt.alloc(), 0)?,
            seats: None,
        })
    }

    // The hub is over, where there is one, and leaves its store.
    fn close(&mut self) {
        if let Some(seats) = self.seats.take() {
            self.store = BareStore::left(into_store(seats));
        }
    }

    // A new store, whose call of that number fails where one is named.
    fn make_store(&mut self, words: &[&str]) -> Result<()> {
        let fails = number(words, 1).unwrap_or(0);
        self.seats = None;
        self.store = BareStore::new(self.rt.alloc(), fails)?;
        Ok(())
    }

    // What is printed for the words, empty where they make something.
    fn answer(&mut self, words: &[&str]) -> Result<String> {
        let alloc = self.rt.alloc();
        match word(words, 0) {
            "store" => self.make_store(words)?,
            "hub" => self.seats = Some(self.store.hub(alloc, words)?),
            "over" => self.close(),
            _ => {
                return match &mut self.seats {
                    Some(seats) => seats.play(alloc, words),
                    None => self.store.play(alloc, words),
                };
            }
        }
        Ok(String::new(alloc))
    }

    // What comes of a call, in which `%` is that number.
    fn called(&mut self, call: &str, n: u64) -> Result<String> {
        let alloc = self.rt.alloc();
        let turn = format!(in alloc; "{n}")?;
        let call = call.replace(alloc, "%", turn.as_str())?;
        let words = words_of(alloc, call.as_str())?;
        self.answer(words.as_slice())
    }

    // What is printed for a line in which `%` is that number.
    fn played(&mut self, line: &str, n: u64) -> Result<String> {
        let alloc = self.rt.alloc();
        if line.is_empty() {
            return Ok(String::new(alloc));
        }
        if line.starts_with("#") {
            return Ok(format!(in alloc; "{line}\n")?);
        }
        let answer = self.called(line.trim_start_matches("~"), n).context(line)?;
        if answer.is_empty() || line.starts_with("~") {
            return Ok(String::new(alloc));
        }
        Ok(format!(in alloc; "{line}: {answer}\n")?)
    }

    // What is printed for lines in which `%` is that number.
    fn all(&mut self, lines: &[&str], n: u64) -> Result<String> {
        let mut text = String::new(self.rt.alloc());
        for line in lines {
            text.push_str(self.played(line, n)?.as_str())?;
        }
        Ok(text)
    }

    // Plays lines for a number, and prints what differs from what was printed last.
    fn play_for(&mut self, lines: &[&str], n: u64, last: &mut String) -> Result<()> {
        let text = self.all(lines, n)?;
        if text.as_str() != last.as_str() {
            print!(self.rt; "from {n} on:\n{text}")?;
            *last = text;
        }
        Ok(())
    }

    // Plays lines for so many numbers, from one on.
    fn each(&mut self, count: u64, from: u64, lines: &[&str]) -> Result<()> {
        println!(self.rt; "each {count} {from}")?;
        let mut last = String::new(self.rt.alloc());
        for turn in 0..count {
            self.play_for(lines, turn.saturating_add(from), &mut last)?;
        }
        println!(self.rt; "{count} played")?;
        Ok(())
    }

    /// Plays a line; `each` over what was prepared.
    pub fn play(&mut self, line: &str, prepared: &[&str]) -> Result<()> {
        if line.starts_with("each ") {
            let words = words_of(self.rt.alloc(), line)?;
            let words = words.as_slice();
            return self.each(number(words, 1)?, number(words, 2)?, prepared);
        }
        let text = self.played(line, 0)?;
        print!(self.rt; "{text}")?;
        Ok(())
    }
}
