//! Parts are cut to their marks.
ghost use Rattle.std.specs.Prelude.{◌≡◌, IfErr, OnOk, map};
ghost use Rattle.disk_model.specs.Changes.{Every, Follows};
ghost use Rattle.disk_model.specs.Moments.{Leaves};
ghost use Rattle.ledger_rec.specs.Items.{part_mark};
ghost use Rattle.node_model.specs.Lists.{Member};
ghost use Rattle.node_store.specs.Clearing.{Restores};
ghost use Rattle.node_store.specs.Keeping.{HasReason};
ghost use Rattle.node_store.specs.Tending.{CutsPart, HasCutParts, IsTended};
ghost use Rattle.node_store.specs.declared.opening.fault.StoreOpenFault.TheVariants.{Disk as DiskFailed};

use crate::books::Books;
use crate::names::in_file;
use crate::opening::fault::StoreOpenFault;
use disk_model::Disk;
use ledger_rec::MarkItem;

// Cuts a part to its mark.
fn cut_part<D: Disk>(disk: &mut D, mark: &MarkItem, books: &Books) -> Result<(), StoreOpenFault>
    requires tended { IsTended D.files D.moment D.images books.now.payloads books.now.folding.state disk.old }
    requires there { Member (part_mark mark.now) books.now.folding.state.marks }
    ensures tended { OnOk result (IsTended D.files D.moment D.images books.now.payloads books.now.folding.state disk.new) }
    ensures cut { OnOk result (Follows (CutsPart (part_mark mark.now)) (D.files disk.old) (D.files disk.new)) }
    ensures stop { Leaves D.moment D.images Restores disk.old disk.new }
    ensures read { Follows Restores (D.files disk.old) (D.files disk.new) }
    ensures fault { IfErr result (λ fault. fault ≡ DiskFailed) }
    ensures reason { HasReason (D.fault_count disk.old) (D.fault_count disk.new) result }
{
    let _books = books.folded();
    disk.cut(&in_file(mark.part), mark.len)?;
    Ok(())
}

/// Cuts the parts of all marks.
pub(crate) fn cut_parts<D: Disk>(disk: &mut D, books: &Books) -> Result<(), StoreOpenFault>
    requires { IsTended D.files D.moment D.images books.now.payloads books.now.folding.state disk.old }
    ensures tended { OnOk result (IsTended D.files D.moment D.images books.now.payloads books.now.folding.state disk.new) }
    ensures cut { OnOk result (Every (D.files disk.new) (HasCutParts books.now.folding.state)) }
    ensures stop { Leaves D.moment D.images Restores disk.old disk.new }
    ensures read { Follows Restores (D.files disk.old) (D.files disk.new) }
    ensures fault { IfErr result (λ fault. fault ≡ DiskFailed) }
    ensures reason { HasReason (D.fault_count disk.old) (D.fault_count disk.new) result }
{
    let marks = books.folded().marks();
    for mark in marks {
        match cut_part(disk, mark, books) {
            Ok(()) => (),
            Err(fault) => return Err(fault),
        }
    }
    Ok(())
}
