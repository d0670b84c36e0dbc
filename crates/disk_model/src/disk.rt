//! The mailer's own folder.
ghost use Rattle.std.specs.Prelude.{◌≡◌, ℕ, Bool, true, ◌+◌, [], List, length, take, drop, option_map, IfOk, OnOk, Some, None};
ghost use Rattle.disk_model.specs.Answers.{MadeOf, Creates};
ghost use Rattle.disk_model.specs.Causes.{HasCause, ListsWithCause, Outcome, outcome, list_outcome};
ghost use Rattle.disk_model.specs.Changes.{Every, Follows, Same, AtOnce, Stands, SameAt, OnOwn, Rewrites, Puts, Renames, Holds, Torn, Cut};
ghost use Rattle.disk_model.specs.Folders.{ListsFiles};
ghost use Rattle.disk_model.specs.Moments.{Now, Steps};
ghost use Rattle.disk_model.specs.World.{World};

use crate::{ListFault, Made, Name};
use ftn_addr::Failed;

/// A folder of files that a stop may cut short at any moment, also inside a call.
///
/// Where the disk tells its content, a call's conditions are that the name stands and that the place is
/// inside the file. Where it doesn't, they say nothing, and so do the clauses on content; the clauses on
/// causes hold always.
pub trait Disk {
    /// The world as a read gives it. A disk that doesn't tell its content has none such.
    ghost files: { Self → World → Type 0 };

    /// The worlds that a stop at that moment may have left.
    ghost images: { Self → ℕ → World → Type 0 };

    /// The moment that it is. One call raises it by at most one.
    ghost moment: { Self → ℕ };

    /// How often a call failed.
    ghost fault_count: { Self → ℕ };

    /// What disks of this type say of the end of a call, beside the causes that all have: a disk in memory
    /// says exactly which calls fail.
    ghost rule: { Outcome → Self → Self → Type 0 };

    /// Whether disks of this type tell their content.
    ghost tells: { Bool };

    /// The content of a disk that tells it.
    ghost content: { Self → World };

    /// The number of calls that failed so far. It never falls.
    fn faults(&self) -> u64
        ensures { result ≡ fault_count self.now };

    /// The length of a file in bytes, or None where the name doesn't stand.
    fn stat(&mut self, name: &Name) -> Result<Option<u64>, Failed>
        ensures told { IfOk result (λ len. Every (files self.old) (λ w. len ≡ option_map length (w.own name.now))) }
        ensures read { Every (files self.new) (files self.old) }
        ensures stop { Steps moment images Same self.old self.new }
        ensures cause { HasCause (fault_count self.old) (fault_count self.new) result }
        ensures rule { rule (outcome result) self.old self.new };

    /// The names of the files, in the order of their bytes. What stands in the folder under another name
    /// is passed over.
    fn list(&mut self) -> Result<Vec<Name>, ListFault>
        ensures told { IfOk result (λ names. Every (files self.old) (λ w. ListsFiles w.own names.items)) }
        ensures read { Every (files self.new) (files self.old) }
        ensures stop { Steps moment images Same self.old self.new }
        ensures cause { ListsWithCause (fault_count self.old) (fault_count self.new) result }
        ensures rule { rule (list_outcome result) self.old self.new };

    /// Fills `out` with the bytes from the place `at` on.
    fn read_at(&mut self, name: &Name, at: u64, out: &mut [u8]) -> Result<(), Failed>
        requires { Every (files self.old) (Stands name.now (at + length out.old)) }
        ensures told { OnOk result (Every (files self.old) (λ w. (b : List ℕ) → w.own name.now ≡ Some b → out.new ≡ take (length out.old) (drop at b))) }
        ensures read { Every (files self.new) (files self.old) }
        ensures stop { Steps moment images Same self.old self.new }
        ensures cause { HasCause (fault_count self.old) (fault_count self.new) result }
        ensures rule { rule (outcome result) self.old self.new };

    /// Makes an empty file, wholly or not at all. It lasts once the answer is Ok.
    fn create(&mut self, name: &Name) -> Result<Made, Failed>
        ensures told { IfOk result (λ made. Every (files self.old) (MadeOf made name.now)) }
        ensures read { Follows (AtOnce result (Creates name.now)) (files self.old) (files self.new) }
        ensures stop { Steps moment images (AtOnce result (Creates name.now)) self.old self.new }
        ensures cause { HasCause (fault_count self.old) (fault_count self.new) result }
        ensures rule { rule (outcome result) self.old self.new };

    /// Writes from the place `at` on, over what is there and past the end. Until a sync a stop may leave
    /// any bytes in the range, and any length between; so may a write that failed.
    fn write_at(&mut self, name: &Name, at: u64, bytes: &[u8]) -> Result<(), Failed>
        requires { Every (files self.old) (Stands name.now at) }
        ensures written { OnOk result (Follows (OnOwn (Rewrites name.now (Holds at bytes.now))) (files self.old) (files self.new)) }
        ensures read { Follows (OnOwn (Rewrites name.now (Torn at (length bytes.now)))) (files self.old) (files self.new) }
        ensures stop { Steps moment images (OnOwn (Rewrites name.now (Torn at (length bytes.now)))) self.old self.new }
        ensures cause { HasCause (fault_count self.old) (fault_count self.new) result }
        ensures rule { rule (outcome result) self.old self.new };

    /// Cuts a file to a length in bytes. Until a sync a stop may leave any length between.
    fn cut(&mut self, name: &Name, len: u64) -> Result<(), Failed>
        requires { Every (files self.old) (Stands name.now len) }
        ensures cut { OnOk result (Follows (OnOwn (Rewrites name.now (λ b c. c ≡ take len b))) (files self.old) (files self.new)) }
        ensures read { Follows (OnOwn (Rewrites name.now (Cut len))) (files self.old) (files self.new) }
        ensures stop { Steps moment images (OnOwn (Rewrites name.now (Cut len))) self.old self.new }
        ensures cause { HasCause (fault_count self.old) (fault_count self.new) result }
        ensures rule { rule (outcome result) self.old self.new };

    /// Makes a file durable: once it answered Ok, a stop leaves what a read of the file gives.
    fn sync(&mut self, name: &Name) -> Result<(), Failed>
        requires { Every (files self.old) (Stands name.now 0) }
        ensures durable { OnOk result (Follows (SameAt name.now) (files self.old) (Now moment images self.new)) }
        ensures read { Every (files self.new) (files self.old) }
        ensures stop { Steps moment images Same self.old self.new }
        ensures cause { HasCause (fault_count self.old) (fault_count self.new) result }
        ensures rule { rule (outcome result) self.old self.new };

    /// Gives a file another name. A file that stands under the new name is replaced. It happens wholly or
    /// not at all, and lasts once the answer is Ok.
    fn rename(&mut self, from: &Name, to: &Name) -> Result<(), Failed>
        requires { Every (files self.old) (Stands from.now 0) }
        ensures read { Follows (AtOnce result (λ _. OnOwn (Renames from.now to.now))) (files self.old) (files self.new) }
        ensures stop { Steps moment images (AtOnce result (λ _. OnOwn (Renames from.now to.now))) self.old self.new }
        ensures cause { HasCause (fault_count self.old) (fault_count self.new) result }
        ensures rule { rule (outcome result) self.old self.new };

    /// Removes a file, wholly or not at all. It lasts once the answer is Ok.
    fn remove(&mut self, name: &Name) -> Result<(), Failed>
        requires { Every (files self.old) (Stands name.now 0) }
        ensures read { Follows (AtOnce result (λ _. OnOwn (Puts name.now None))) (files self.old) (files self.new) }
        ensures stop { Steps moment images (AtOnce result (λ _. OnOwn (Puts name.now None))) self.old self.new }
        ensures cause { HasCause (fault_count self.old) (fault_count self.new) result }
        ensures rule { rule (outcome result) self.old self.new };

    /// A disk as it reads is one of its images.
    ghost as_read: { (d : Self) (w : World) → files d w → Now moment images d w };

    /// A disk that tells reads as its content, and no other has a content to read.
    ghost reads: { (d : Self) (w : World) → files d w → (tells ≡ true) × (w ≡ content d) };

    ghost told: { tells ≡ true → (d : Self) → files d (content d) };
}
