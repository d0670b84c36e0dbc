//! Trials of a call: it is stopped at each call of its disk, or each of them fails.
use crate::stage::Stage;
use mem_node::{picks_at, stopped};
use std::alloc::Global;
use std::sync::Wait;
use std::test::Fail;

/// Whether the line begins a trial.
pub fn is_trial(line: &str) -> bool {
    match line.split_once(' ') {
        Some((kind, _)) => matches!(kind, "stops" | "leaves" | "fails" | "breaks"),
        None => false,
    }
}

// The first outcome, and the text of all that differ.
#[derive(Drop)]
struct Seen {
    first: Option<String>,
    text: String,
}

impl Seen {
    // Adds an outcome, with its place where it isn't as the first.
    fn add(&mut self, outcome: String, place: &str) -> Result<(), Fail> {
        let Some(first) = &self.first else {
            self.text.push_str(outcome.as_str())?;
            self.first = Some(outcome);
            return Ok(());
        };
        if first.as_str() != outcome.as_str() {
            self.text.push_str(place)?;
            self.text.push_str(outcome.as_str())?;
        }
        Ok(())
    }
}

/// A trial.
#[derive(Drop)]
pub struct Trial<'t> {
    /// Its kind, and the call.
    pub line: &'t str,
    /// What is played before the call.
    pub prepared: &'t [&'t str],
    /// What is played over what it leaves.
    pub then: &'t [&'t str],
}

impl Trial<'_> {
    fn call(&self) -> &str {
        match self.line.split_once(' ') {
            Some((_, call)) => call,
            None => "",
        }
    }

    fn is_stop(&self) -> bool {
        self.line.starts_with("stops") || self.line.starts_with("leaves")
    }

    // The number of the first trial.
    fn first(&self, calls: u64) -> u64 {
        match self.line.as_bytes().first() {
            Some(b's') => 0,
            Some(b'l') => calls,
            _ => 1,
        }
    }

    // Behind how many calls the disk is stopped, of the trial of that number.
    fn after(&self, number: u64) -> u64 {
        if self.is_stop() { number } else { u64::MAX }
    }

    // Makes the call over the disk as prepared. Its disk's call of that number fails, unless it is stopped there.
    fn arrive<W: Wait + Drop>(&self, stage: &mut Stage<W>, number: u64) -> Result<(), Fail> {
        for line in self.prepared {
            stage.play(line)?;
        }
        stage.failing = if self.is_stop() { 0 } else { number };
        stage.play(self.call())?;
        stage.take_said();
        Ok(())
    }

    // How many images there are of the disk that the call leaves.
    fn images<W: Wait + Drop>(&self, stage: &mut Stage<W>, number: u64) -> Result<u64, Fail> {
        if self.line.starts_with("fails") {
            return Ok(1);
        }
        self.arrive(stage, number)?;
        Ok(picks_at(&stage.disk, self.after(number)))
    }

    // What is printed over such an image.
    fn outcome<W: Wait + Drop>(
        &self,
        stage: &mut Stage<W>,
        number: u64,
        pick: u64,
    ) -> Result<String, Fail> {
        self.arrive(stage, number)?;
        if !self.line.starts_with("fails") {
            let disk = stage.take_disk();
            stage.disk = stopped(disk, self.after(number), pick)?.into_disk();
        }
        for line in self.then {
            stage.play(line)?;
        }
        Ok(stage.take_said())
    }

    // How many calls the disk makes.
    fn calls<W: Wait + Drop>(&self, stage: &mut Stage<W>) -> Result<u64, Fail> {
        self.arrive(stage, 0)?;
        Ok(stage.disk.calls())
    }

    // The place of an outcome.
    fn place(&self, alloc: Global, number: u64, pick: u64, is_last: bool) -> Result<String, Fail> {
        Ok(if is_last && self.line.starts_with("fails") {
            String::from_str(alloc, "at the last call:\n")?
        } else {
            format!(in alloc; "at call {number}, pick {pick}:\n")?
        })
    }

    // Tries each image of the call of that number.
    fn each<W: Wait + Drop>(
        &self,
        stage: &mut Stage<W>,
        seen: &mut Seen,
        number: u64,
        calls: u64,
    ) -> Result<(), Fail> {
        for pick in 0..self.images(stage, number)? {
            let place = self.place(stage.alloc, number, pick, number == calls)?;
            let outcome = self.outcome(stage, number, pick);
            if outcome.is_err() {
                let _ = stage.say(place.as_str());
            }
            let outcome = outcome?;
            seen.add(outcome, place.as_str())?;
        }
        Ok(())
    }

    // Prints what all trials came to.
    fn tell<W: Wait + Drop>(&self, stage: &mut Stage<W>, seen: &str) -> Result<(), Fail> {
        stage.take_said();
        stage.begin(self.line)?;
        stage.say("")?;
        Ok(stage.say(seen.trim_end())?)
    }

    /// Makes all trials. What comes of the first is printed, and of each other that differs from it.
    pub fn all<W: Wait + Drop>(&self, stage: &mut Stage<W>) -> Result<(), Fail> {
        let calls = self.calls(stage)?;
        let mut seen = Seen {
            first: None,
            text: String::new(stage.alloc),
        };
        for number in self.first(calls)..=calls {
            self.each(stage, &mut seen, number, calls)?;
        }
        self.tell(stage, seen.text.as_str())
    }
}
