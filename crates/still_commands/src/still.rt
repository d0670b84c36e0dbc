//! The commands without a session, over a disk.
ghost use Rattle.std.specs.Prelude.{◌≡◌, ◌≢◌, Ok, true};
ghost use Rattle.disk_model.specs.Changes.{Every};
ghost use Rattle.disk_model.specs.Moments.{Now};
ghost use Rattle.node_store.specs.Opening.{IsReady, Recovers};
ghost use Rattle.nodelist_files.specs.Compiling.{OldPair};
ghost use Rattle.command_base.specs.Causes.{DiskCause};
ghost use Rattle.command_base.specs.Printing.{OutCause};
ghost use Rattle.command_base.specs.Statuses.{status_text};
ghost use Rattle.command_words.specs.Forms.{Taking, still_command};
ghost use Rattle.still_commands.specs.Came.{told_of};
ghost use Rattle.still_commands.specs.Lists.{IsListRefused, ListsSo, Throughout};
ghost use Rattle.still_commands.specs.Receipts.{KeepsReceived};
ghost use Rattle.still_commands.specs.Still.{Runs_still, StillCall};

use crate::came::Came;
use crate::compiling::compile_file;
use crate::listing::list_store;
use crate::looking::look_up;
use crate::taking::take_outbound;
use binkp_link::Sink;
use command_base::{Status, print_lines};
use command_words::StillForm;
use disk_model::Yard;
use std::alloc::Global;

/// Does a command over the disk, prints what came of it, and gives the disk back. The moment, in seconds, is that of
/// packets and requests that are taken in.
pub fn run_still<D: Yard, O: Sink>(
    alloc: Global,
    form: StillForm<'_>,
    disk: D,
    now: u64,
    out: &mut O,
) -> (Status, D)
    requires ready { D.tells ≡ true → Every (Now D.moment D.images disk) (IsReady (D.content disk)) }
    ensures call { StillCall D.files D.tells D.content D.fault_count D.moment D.images (still_command form.entry) now disk (O.state out.old) (status_text result.0) result.1 (O.state out.new) }
    ensures cause { DiskCause D.tells D.content D.fault_count (status_text result.0) disk result.1 }
    ensures out_cause { OutCause (status_text result.0) (O.state out.old) (O.state out.new) }

    // At each moment since the call began what was received stays so.
    ensures received { D.tells ≡ true → KeepsReceived D.content D.moment D.images disk result.1 }

    // But for a take-in a stop at each of them leaves what opens as before, and so does the end of the call.
    ensures stays { D.tells ≡ true → (still_command form.entry ≢ Taking) → Throughout D.content D.moment D.images Recovers disk result.1 }

    // List and index are as before then, or the list of the file that is compiled stands with the old or the new index. Where the
    // file is refused, both are as before.
    ensures lists { D.tells ≡ true → (still_command form.entry ≢ Taking) → Throughout D.content D.moment D.images (ListsSo (D.files disk) (still_command form.entry)) disk result.1 }
    ensures refused { D.tells ≡ true → IsListRefused (status_text result.0) → Throughout D.content D.moment D.images OldPair disk result.1 }
{
    let (came, disk) = do_still(alloc, form, disk, now);
    let Came { lines, status } = came;
    (print_lines(alloc, Ok(lines), status, out), disk)
}

// The command, before anything is printed.
fn do_still<D: Yard>(alloc: Global, form: StillForm<'_>, disk: D, now: u64) -> (Came, D)
    requires ready { D.tells ≡ true → Every (Now D.moment D.images disk) (IsReady (D.content disk)) }
    ensures { Runs_still D.files D.tells D.content D.fault_count D.moment D.images (still_command form.entry) now disk (told_of result.0) result.1 }
{
    match form {
        StillForm::Lookup(text) => look_up(alloc, text, disk),
        StillForm::Compile(path) => compile_file(alloc, path, disk),
        StillForm::List => list_store(alloc, disk),
        StillForm::Take => take_outbound(alloc, disk, now),
    }
}
