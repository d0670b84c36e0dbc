//! `trial`.
ghost use Rattle.std.specs.Prelude.{◌≡◌, IfOk};
ghost use Rattle.command_base.specs.Printing.{OutCause};
ghost use Rattle.command_base.specs.Statuses.{status_text};
ghost use Rattle.node_trial.specs.declared.totals.Totals.{Totals as AnyTotals};
ghost use Rattle.trial_command.specs.Line.{totals_text};
ghost use Rattle.trial_command.specs.Trial.{IsTrialStatus, MayComeTo, TrialCall};

use crate::line::totals_line;
use binkp_link::Sink;
use command_base::{Status, print_lines};
use command_words::TrialForm;
use ftn_addr::{Bytes, NoMemory};
use node_trial::Trial;
use std::alloc::Global;

// Holds a trial: the line of what it came to.
fn held_line(alloc: Global, form: TrialForm) -> Result<Bytes, NoMemory>
    ensures { IfOk result (λ line. (t : AnyTotals) × MayComeTo form.count form.start t × (line.list ≡ totals_text t)) }
{
    let totals = Trial::run(alloc, form.count, form.start)?;
    totals_line(alloc, &totals)
}

/// Holds a trial in memory, prints what it came to, and answers the status. No disk and no line is touched.
pub fn run_trial<O: Sink>(alloc: Global, form: TrialForm, out: &mut O) -> Status
    ensures call { TrialCall form.count form.start (O.state out.old) (status_text result) (O.state out.new) }
    ensures status { IsTrialStatus (status_text result) }
    ensures out_cause { OutCause (status_text result) (O.state out.old) (O.state out.new) }
{
    match held_line(alloc, form) {
        Ok(line) => print_lines(alloc, Ok(line), Status::Done, out),
        Err(NoMemory) => print_lines(alloc, Ok(Bytes::new(alloc)), Status::NoMemory, out),
    }
}
