//! The folders that the mailer shares with other programs.
ghost use Rattle.std.specs.Prelude.{◌≡◌, ℕ, map, option_map, IfOk};
ghost use Rattle.disk_model.specs.Answers.{stat_of, MovedOf, Takes, CopiedOf, Copies, CopiesInPart, HitOf, Removes, Empties, MarkingOf, Marks, UnmarkOf, GivingOf, GivesTo};
ghost use Rattle.disk_model.specs.Causes.{HasCause, ListsWithCause, outcome, list_outcome};
ghost use Rattle.disk_model.specs.Changes.{Every, Follows, Same, Stands, IsFree};
ghost use Rattle.disk_model.specs.Folders.{path_in, IsInUse, ListsFolder};
ghost use Rattle.disk_model.specs.Moments.{MakesNothing, Steps, Together};

use crate::{Copied, Disk, Giving, Hit, ListFault, Marking, Moved, Name, OutStat};
use ftn_addr::{Bytes, Failed};

/// A disk beside folders that other programs use too. The bytes of an outside file count as synced, also
/// once it was taken. But for `copy`, each call happens wholly or not at all, and lasts once the answer
/// is Ok.
pub trait Yard: Disk {
    /// The size and time of an outside file, or None where none stands under the path.
    fn look(&mut self, path: &Bytes) -> Result<Option<OutStat>, Failed>
        ensures told { IfOk result (λ stat. Every (Self.files self.old) (λ w. stat ≡ option_map stat_of (w.outside path.now.list))) }
        ensures read { Every (Self.files self.new) (Self.files self.old) }
        ensures stop { Steps Self.moment Self.images Same self.old self.new }
        ensures cause { HasCause (Self.fault_count self.old) (Self.fault_count self.new) result }
        ensures rule { Self.rule (outcome result) self.old self.new };

    /// The names of the files and folders that stand directly in a folder, in the order of their bytes. A
    /// folder that isn't there gives none.
    fn names(&mut self, folder: &Bytes) -> Result<Vec<Bytes>, ListFault>
        ensures told { IfOk result (λ names. Every (Self.files self.old) (λ w. ListsFolder folder.now.list w.outside (map (λ name. name.list) names.items))) }
        ensures read { Every (Self.files self.new) (Self.files self.old) }
        ensures stop { Steps Self.moment Self.images Same self.old self.new }
        ensures cause { ListsWithCause (Self.fault_count self.old) (Self.fault_count self.new) result }
        ensures rule { Self.rule (list_outcome result) self.old self.new };

    /// Moves an outside file into the own folder.
    fn take(&mut self, path: &Bytes, own: &Name) -> Result<Moved, Failed>
        requires { Every (Self.files self.old) (IsFree own.now) }
        ensures told { IfOk result (λ moved. Every (Self.files self.old) (λ w. MovedOf moved (w.outside path.now.list))) }
        ensures both { Together Self.files Self.moment Self.images result (Takes path.now.list own.now) self.old self.new }
        ensures cause { HasCause (Self.fault_count self.old) (Self.fault_count self.new) result }
        ensures rule { Self.rule (outcome result) self.old self.new };

    /// Makes an own file anew from an outside file of at most `most` bytes. Its bytes are a written range
    /// until a sync.
    fn copy(&mut self, path: &Bytes, own: &Name, most: u64) -> Result<Copied, Failed>
        ensures told { IfOk result (λ copied. Every (Self.files self.old) (λ w. CopiedOf copied most (w.outside path.now.list))) }
        ensures read { Follows (Copies result path.now.list own.now most) (Self.files self.old) (Self.files self.new) }
        ensures stop { Steps Self.moment Self.images (CopiesInPart result own.now most) self.old self.new }
        ensures cause { HasCause (Self.fault_count self.old) (Self.fault_count self.new) result }
        ensures rule { Self.rule (outcome result) self.old self.new };

    /// Removes an outside file whose size and time are these. Where they aren't nothing changes, whatever it
    /// answers.
    fn remove_if(&mut self, path: &Bytes, was: &OutStat) -> Result<Hit, Failed>
        ensures told { IfOk result (λ hit. Every (Self.files self.old) (λ w. HitOf hit was.now (w.outside path.now.list))) }
        ensures both { Together Self.files Self.moment Self.images result (Removes path.now.list) self.old self.new }
        ensures other { Every (Self.files self.old) (λ w. HitOf Hit.Other was.now (w.outside path.now.list) → MakesNothing Self.files Self.moment Self.images self.old self.new) }
        ensures cause { HasCause (Self.fault_count self.old) (Self.fault_count self.new) result }
        ensures rule { Self.rule (outcome result) self.old self.new };

    /// Cuts an outside file whose size and time are these to length 0. Where they aren't nothing changes,
    /// whatever it answers.
    fn cut_if(&mut self, path: &Bytes, was: &OutStat) -> Result<Hit, Failed>
        ensures told { IfOk result (λ hit. Every (Self.files self.old) (λ w. HitOf hit was.now (w.outside path.now.list))) }
        ensures both { (time : ℕ) × Together Self.files Self.moment Self.images result (Empties path.now.list time) self.old self.new }
        ensures other { Every (Self.files self.old) (λ w. HitOf Hit.Other was.now (w.outside path.now.list) → MakesNothing Self.files Self.moment Self.images self.old self.new) }
        ensures cause { HasCause (Self.fault_count self.old) (Self.fault_count self.new) result }
        ensures rule { Self.rule (outcome result) self.old self.new };

    /// Makes a new outside file with the text. A read and a stop agree on its time. Where a file stands there
    /// nothing changes, whatever it answers.
    fn mark(&mut self, path: &Bytes, text: &Bytes) -> Result<Marking, Failed>
        ensures told { IfOk result (λ marking. Every (Self.files self.old) (λ w. MarkingOf marking (w.outside path.now.list))) }
        ensures both { (time : ℕ) × Together Self.files Self.moment Self.images result (Marks path.now.list text.now.list time) self.old self.new }
        ensures exists { Every (Self.files self.old) (λ w. MarkingOf Marking.Exists (w.outside path.now.list) → MakesNothing Self.files Self.moment Self.images self.old self.new) }
        ensures cause { HasCause (Self.fault_count self.old) (Self.fault_count self.new) result }
        ensures rule { Self.rule (outcome result) self.old self.new };

    /// Removes an outside file that holds exactly the text. Where it doesn't nothing changes, whatever it
    /// answers.
    fn unmark(&mut self, path: &Bytes, text: &Bytes) -> Result<Hit, Failed>
        ensures told { IfOk result (λ hit. Every (Self.files self.old) (λ w. UnmarkOf hit text.now.list (w.outside path.now.list))) }
        ensures both { Together Self.files Self.moment Self.images result (Removes path.now.list) self.old self.new }
        ensures other { Every (Self.files self.old) (λ w. UnmarkOf Hit.Other text.now.list (w.outside path.now.list) → MakesNothing Self.files Self.moment Self.images self.old self.new) }
        ensures cause { HasCause (Self.fault_count self.old) (Self.fault_count self.new) result }
        ensures rule { Self.rule (outcome result) self.old self.new };

    /// Moves an own file into an outside folder under a name, and counts it among the gifts. A read and a
    /// stop agree on its time there. Where the name is in use, nothing changes, whatever it answers.
    fn give(&mut self, own: &Name, folder: &Bytes, name: &Bytes) -> Result<Giving, Failed>
        requires { Every (Self.files self.old) (Stands own.now 0) }
        ensures told { IfOk result (λ giving. Every (Self.files self.old) (GivingOf giving (path_in folder.now.list name.now.list))) }
        ensures both { (time : ℕ) × Together Self.files Self.moment Self.images result (GivesTo own.now folder.now.list name.now.list time) self.old self.new }
        ensures in_use { Follows (λ d c. IsInUse (path_in folder.now.list name.now.list) d.outside → Same d c) (Self.files self.old) (Self.files self.new) }
        ensures cause { HasCause (Self.fault_count self.old) (Self.fault_count self.new) result }
        ensures rule { Self.rule (outcome result) self.old self.new };
}
