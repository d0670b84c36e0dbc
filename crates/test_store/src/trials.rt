//! Trials of a call: it is stopped at each call of its disk, or each of them fails.
use crate::stage::Stage;
use mem_node::picks_at;
use std::alloc::{AllocError, Global};
use std::test::Fail;
use test_script::behind;

/// Whether the line begins a trial.
pub fn is_trial(line: &str) -> bool {
    line.starts_with("stops ") || line.starts_with("breaks ")
}

// Adds an outcome, unless there is one like it.
fn add(seen: &mut Vec<String>, outcome: String) -> Result<(), AllocError> {
    for one in seen.iter() {
        if one.as_str() == outcome.as_str() {
            return Ok(());
        }
    }
    seen.push(outcome)?;
    Ok(())
}

// The line of a trial, and its outcomes.
fn told(alloc: Global, line: &str, seen: &[String]) -> Result<String, AllocError> {
    let mut text = format!(in alloc; "{line}:\n")?;
    let mut between = "";
    for outcome in seen {
        text.push_str(between)?;
        text.push_str(outcome.as_str())?;
        between = "or:\n";
    }
    Ok(text)
}

/// A line, or a trial that begins so.
#[derive(Drop)]
pub struct Trial<'t> {
    /// The line: of a trial its kind, and the call.
    pub line: &'t str,
    /// What is played before the call.
    pub prepared: &'t [&'t str],
    /// What is played over what it leaves.
    pub then: &'t [&'t str],
}

impl Trial<'_> {
    fn is_stop(&self) -> bool {
        self.line.starts_with("stops ")
    }

    // Which call of the disk fails, where so many are made before; 0 where it is stopped there.
    fn failing(&self, made: u64) -> u64 {
        if self.is_stop() {
            0
        } else {
            made.saturating_add(1)
        }
    }

    // Behind how many calls the disk is stopped.
    fn after(&self, made: u64) -> u64 {
        if self.is_stop() { made } else { u64::MAX }
    }

    fn prepare(&self, stage: &mut Stage) -> Result<(), Fail> {
        for line in self.prepared {
            stage.play(line)?;
        }
        Ok(())
    }

    // Makes the call over what is prepared. That call of its disk fails.
    fn call(&self, stage: &mut Stage, failing: u64) -> Result<String, Fail> {
        self.prepare(stage)?;
        stage.failing = failing;
        stage.play(behind(self.line))
    }

    // Leaves an image of the disk behind the call.
    fn arrive(&self, stage: &mut Stage, made: u64, pick: u64) -> Result<String, Fail> {
        let said = self.call(stage, self.failing(made))?;
        stage.stop(self.after(made), pick)?;
        Ok(said)
    }

    // What is printed over such an image.
    fn outcome(&self, stage: &mut Stage, made: u64, pick: u64) -> Result<String, Fail> {
        let mut said = self.arrive(stage, made, pick)?;
        for line in self.then {
            if *line == "again" {
                self.arrive(stage, made, pick)?;
            } else if let Some(end) = line.strip_prefix("only ") {
                if !said.as_str().trim_end().ends_with(end) {
                    return Ok(said);
                }
            } else {
                said.push_str(stage.play(line)?.as_str())?;
            }
        }
        Ok(said)
    }

    // Tries each image of a stop, or of a failure, behind so many calls.
    fn each(&self, stage: &mut Stage, seen: &mut Vec<String>, made: u64) -> Result<(), Fail> {
        self.call(stage, self.failing(made))?;
        for pick in 0..picks_at(&stage.disk, self.after(made)) {
            let outcome = self.outcome(stage, made, pick)?;
            add(seen, outcome)?;
        }
        Ok(())
    }

    // Makes all trials: the outcomes, each once.
    fn all(&self, stage: &mut Stage) -> Result<String, Fail> {
        self.call(stage, 0)?;
        let calls = stage.disk.calls();
        let mut seen = Vec::new(stage.alloc);
        for made in 0..calls {
            stage.left = calls - made;
            self.each(stage, &mut seen, made)?;
        }
        if self.is_stop() {
            stage.left = 0;
            self.each(stage, &mut seen, calls)?;
        }
        Ok(told(stage.alloc, self.line, seen.as_slice())?)
    }

    /// Plays the line, or makes the trial: what is printed.
    pub fn play(&self, stage: &mut Stage) -> Result<String, Fail> {
        if is_trial(self.line) {
            return self.all(stage);
        }
        if self.line != "again" {
            return stage.play(self.line);
        }
        self.prepare(stage)?;
        Ok(String::new(stage.alloc))
    }
}
