//! The scripts that a source of lines in memory plays.
ghost use Rattle.std.specs.Prelude.{◌≡◌, All, IfSome, drop, option_map};
ghost use Rattle.binkp_link.specs.Callers.{ActIsUnused, UnusedLine, line_dialled, line_of};
ghost use Rattle.binkp_link.specs.Repeats.{first_item};

use crate::mem_line::MemLine;
use std::collections::VecDeque;
use std::marker::Model;

/// Who calls next. After the last act nobody will call any more.
#[derive(Debug, Drop)]
pub enum NextAct {
    Line(MemLine),
    Nothing,
    Stop,
    Failed,
}

/// Who calls, act by act. No byte moved on the lines yet.
#[derive(Debug, Drop)]
pub struct Callers {
    acts: VecDeque<NextAct>,
}

impl Model for Callers {
    ghost use Rattle.std.specs.Prelude.{List, All};
    ghost use Rattle.binkp_link.specs.Callers.{ActIsUnused};
    ghost use Rattle.binkp_link.specs.declared.callers.NextAct.{NextAct};

    ghost Value = { List NextAct };

    ghost view = { λ callers. callers.acts.items };

    ghost invariant = { λ callers. All ActIsUnused callers.acts.items };
}

impl Callers {
    /// This takes no memory.
    pub fn new(acts: Vec<NextAct>) -> Callers
        requires { All ActIsUnused acts.items }
        ensures { result ≡ acts.items }
    {
        Callers {
            acts: VecDeque::from_vec(acts),
        }
    }

    /// The line of the next act, where it gives one.
    pub fn line(&self) -> Option<&MemLine>
        ensures { option_map (λ line. line.now) result ≡ line_of (first_item self.now) }
    {
        match self.acts.front() {
            Some(NextAct::Line(line)) => Some(line),
            None | Some(NextAct::Nothing | NextAct::Stop | NextAct::Failed) => None,
        }
    }

    /// The next act.
    pub fn take(&mut self) -> Option<NextAct>
        ensures first { result ≡ first_item self.old }
        ensures left { self.new ≡ drop 1 self.old }
        ensures unused { IfSome result ActIsUnused }
    {
        self.acts.pop_front()
    }
}

/// The lines of dials, where None is a dial that fails. No byte moved on them yet.
#[derive(Debug, Drop)]
pub struct Dials {
    lines: VecDeque<Option<MemLine>>,
}

impl Model for Dials {
    ghost use Rattle.std.specs.Prelude.{List, All, Option};
    ghost use Rattle.binkp_link.specs.Callers.{UnusedLine};
    ghost use Rattle.binkp_link.specs.declared.mem_line.MemLine.{MemLine};

    ghost Value = { List (Option MemLine) };

    ghost view = { λ dials. dials.lines.items };

    ghost invariant = { λ dials. All UnusedLine dials.lines.items };
}

impl Dials {
    /// This takes no memory.
    pub fn new(lines: Vec<Option<MemLine>>) -> Dials
        requires { All UnusedLine lines.items }
        ensures { result ≡ lines.items }
    {
        Dials {
            lines: VecDeque::from_vec(lines),
        }
    }

    /// The line of the next dial, where it gives one.
    pub fn line(&self) -> Option<&MemLine>
        ensures { option_map (λ line. line.now) result ≡ line_dialled (first_item self.now) }
    {
        self.lines.front()?.as_ref()
    }

    /// The next dial.
    pub fn take(&mut self) -> Option<Option<MemLine>>
        ensures first { result ≡ first_item self.old }
        ensures left { self.new ≡ drop 1 self.old }
        ensures unused { IfSome result UnusedLine }
    {
        self.lines.pop_front()
    }
}
