//! The calls on marks in the outbound (FTS-5005).
ghost use Rattle.std.specs.Prelude.{◌≡◌, ℕ, IfOk, None, true};
ghost use Rattle.busy_marks.specs.Marking.{MakesMark};
ghost use Rattle.busy_marks.specs.Undoing.{Undoes};
ghost use Rattle.disk_model.specs.Answers.{UnmarkOf};
ghost use Rattle.disk_model.specs.Changes.{Every};
ghost use Rattle.disk_model.specs.declared.answers.Hit.{Hit};
ghost use Rattle.node_model.specs.StoreStates.{IfTold};
ghost use Rattle.node_store.specs.Names.{is_note};
ghost use Rattle.node_store.specs.OutboundMarks.{HasMarked, mark_gone, marked_so};
ghost use Rattle.node_store.specs.Stored.{stand_of};
ghost use Rattle.node_store.specs.Taking.{Takes};

use crate::NodeStore;
use busy_marks::{mark_addr, unmark_addr};
use disk_model::{Marking, Name, Yard};
use ftn_addr::Bytes;
use node_model::StoreFault;

impl<D: Yard> NodeStore<D> {
    /// Makes a mark of the outbound with the text, behind its note, which is the own file of that name. Where a file stands at the
    /// path nothing outside changes, whatever it answers. It takes no memory.
    pub fn mark(&mut self, path: &Bytes, own: &Name, text: &Bytes) -> Result<Marking, StoreFault>
        requires whole { self.old.memory.broken ≡ None }
        requires note { is_note own.now ≡ true }
        ensures told { IfOk result (λ marking. IfTold (stand_of D.tells D.content D.fault_count D.moment D.images self.old).state.content (λ s. HasMarked marking (s.outside path.now.list))) }
        ensures marks { (time : ℕ) × Takes (marked_so path.now.list text.now.list time) result (stand_of D.tells D.content D.fault_count D.moment D.images self.old) (stand_of D.tells D.content D.fault_count D.moment D.images self.new) }

        // At every moment where the mark stands its note stands, whole. At Exists there is no note.
        ensures noted { (time : ℕ) × MakesMark D.files D.moment D.images result own.now path.now.list text.now.list time self.old.disk self.new.disk }
        ensures takes { self.new.takes ≡ self.old.takes }
    {
        match mark_addr(&mut self.disk, path, own, text) {
            Ok(marking) => Ok(marking),
            Err(_) => {
                self.broken = Some(self.disk.faults());
                Err(StoreFault::Disk)
            }
        }
    }

    /// Removes the mark at the path, where it holds exactly the text, and then its note. A file with another text stays, whatever
    /// it answers. It takes no memory.
    pub fn unmark(&mut self, path: &Bytes, own: &Name, text: &Bytes) -> Result<(), StoreFault>
        requires whole { self.old.memory.broken ≡ None }
        requires note { is_note own.now ≡ true }
        ensures marks { Takes (mark_gone path.now.list text.now.list) result (stand_of D.tells D.content D.fault_count D.moment D.images self.old) (stand_of D.tells D.content D.fault_count D.moment D.images self.new) }

        // At every moment where a mark with the text stands its note is as it was. At Ok neither stands.
        ensures undoes { Every (D.files self.old.disk) (λ w. (hit : Hit) → UnmarkOf hit text.now.list (w.outside path.now.list) → Undoes D.files D.moment D.images result (w.own own.now) hit own.now path.now.list self.old.disk self.new.disk) }
        ensures takes { self.new.takes ≡ self.old.takes }
    {
        match unmark_addr(&mut self.disk, path, own, text) {
            Ok(()) => Ok(()),
            Err(_) => {
                self.broken = Some(self.disk.faults());
                Err(StoreFault::Disk)
            }
        }
    }
}
