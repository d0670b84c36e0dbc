//! Undoing a mark and its note.
ghost use Rattle.std.specs.Prelude.{◌≡◌};
ghost use Rattle.disk_model.specs.Answers.{UnmarkOf};
ghost use Rattle.disk_model.specs.Causes.{HasCause};
ghost use Rattle.disk_model.specs.Changes.{Every};
ghost use Rattle.disk_model.specs.Moments.{Leaves};
ghost use Rattle.busy_marks.specs.Undoing.{MayUndo, RemovesNote, MayRemoveNote, Undoes};
ghost use Rattle.disk_model.specs.declared.answers.Hit.{Hit};

use disk_model::{Disk, Name, Yard};
use ftn_addr::{Bytes, Failed};

/// Removes the mark at the path, where it holds exactly the text, and then its note, where that stands. It
/// takes no memory.
pub fn unmark_addr<D: Yard>(
    disk: &mut D,
    path: &Bytes,
    own: &Name,
    text: &Bytes,
) -> Result<(), Failed>
    // At every moment where a mark with the text stands its note is as it was. At Ok neither stands, and that lasts.
    ensures undoes { Every (D.files disk.old) (λ w. (hit : Hit) → UnmarkOf hit text.now.list (w.outside path.now.list) → Undoes D.files D.moment D.images result (w.own own.now) hit own.now path.now.list disk.old disk.new) }

    // Nothing but these two ever changes.
    ensures stop { Leaves D.moment D.images (MayUndo own.now path.now.list) disk.old disk.new }
    ensures cause { HasCause (D.fault_count disk.old) (D.fault_count disk.new) result }
{
    match disk.unmark(path, text) {
        Ok(_) => remove_note(disk, own),
        Err(_) => Err(Failed),
    }
}

/// Removes an own file, where it stands.
pub(crate) fn remove_note<D: Disk>(disk: &mut D, own: &Name) -> Result<(), Failed>
    ensures removes { Every (D.files disk.old) (λ w. RemovesNote D.files D.moment D.images result (w.own own.now) own.now disk.old disk.new) }
    ensures stop { Leaves D.moment D.images (MayRemoveNote own.now) disk.old disk.new }
    ensures cause { HasCause (D.fault_count disk.old) (D.fault_count disk.new) result }
{
    match disk.stat(own) {
        Ok(Some(_)) => disk.remove(own),
        Ok(None) => Ok(()),
        Err(_) => Err(Failed),
    }
}
