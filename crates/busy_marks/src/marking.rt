//! Making a mark behind its note.
ghost use Rattle.std.specs.Prelude.{◌≡◌, ℕ, IfOk, None, Some};
ghost use Rattle.disk_model.specs.Answers.{MarkingOf};
ghost use Rattle.disk_model.specs.Causes.{HasCause};
ghost use Rattle.disk_model.specs.Changes.{AtOnce, Every, Follows, OnOwn, Puts, Stands};
ghost use Rattle.disk_model.specs.Moments.{Now, Steps};
ghost use Rattle.busy_marks.specs.Marking.{MakesMark, NotesAlone};

use disk_model::{Disk, Marking, Name, Yard};
use ftn_addr::{Bytes, Failed};
use ledger_file::put_file;

/// Notes the path of a mark in the own file `own`, and then makes the mark, with the text. It takes no memory.
///
/// Where a file stands at the path the answer is Exists, and `own` doesn't stand afterwards.
pub fn mark_addr<D: Yard>(
    disk: &mut D,
    path: &Bytes,
    own: &Name,
    text: &Bytes,
) -> Result<Marking, Failed>
    ensures told { IfOk result (λ marking. Every (D.files disk.old) (λ w. MarkingOf marking (w.outside path.now.list))) }

    // At every moment where the mark stands its note stands, whole, and nothing but these two ever changes. At Made both
    // stand, and last. At Exists there is no note. A read and a stop agree on the mark's time, and if the call failed on
    // what was made.
    ensures marks { (time : ℕ) × MakesMark D.files D.moment D.images result own.now path.now.list text.now.list time disk.old disk.new }

    // A file that stands at the path is never touched, whatever the answer.
    ensures exists { Every (D.files disk.old) (λ w. MarkingOf Marking.Exists (w.outside path.now.list) → NotesAlone D.files D.moment D.images own.now disk.old disk.new) }
    ensures cause { HasCause (D.fault_count disk.old) (D.fault_count disk.new) result }
{
    match put_file(disk, own, path.as_slice()) {
        Ok(()) => mark_noted(disk, path, own, text),
        Err(_) => Err(Failed),
    }
}

// Makes the mark whose path is noted, or removes the note.
fn mark_noted<D: Yard>(
    disk: &mut D,
    path: &Bytes,
    own: &Name,
    text: &Bytes,
) -> Result<Marking, Failed>
    requires noted { Every (Now D.moment D.images disk.old) (λ w. w.own own.now ≡ Some path.now.list) }
    ensures told { IfOk result (λ marking. Every (D.files disk.old) (λ w. MarkingOf marking (w.outside path.now.list))) }
    ensures marks { (time : ℕ) × MakesMark D.files D.moment D.images result own.now path.now.list text.now.list time disk.old disk.new }
    ensures exists { Every (D.files disk.old) (λ w. MarkingOf Marking.Exists (w.outside path.now.list) → NotesAlone D.files D.moment D.images own.now disk.old disk.new) }
    ensures cause { HasCause (D.fault_count disk.old) (D.fault_count disk.new) result }
{
    match disk.mark(path, text) {
        Ok(Marking::Made) => Ok(Marking::Made),
        Ok(Marking::Exists) => remove_unused(disk, own),
        Err(_) => Err(Failed),
    }
}

// Removes the note of a mark that wasn't made, since a file stands at its path.
fn remove_unused<D: Disk>(disk: &mut D, own: &Name) -> Result<Marking, Failed>
    requires { Every (D.files disk.old) (Stands own.now 0) }
    ensures exists { IfOk result (λ marking. marking ≡ Marking.Exists) }
    ensures read { Follows (AtOnce result (λ _. OnOwn (Puts own.now None))) (D.files disk.old) (D.files disk.new) }
    ensures stop { Steps D.moment D.images (AtOnce result (λ _. OnOwn (Puts own.now None))) disk.old disk.new }
    ensures cause { HasCause (D.fault_count disk.old) (D.fault_count disk.new) result }
{
    match disk.remove(own) {
        Ok(()) => Ok(Marking::Exists),
        Err(_) => Err(Failed),
    }
}
