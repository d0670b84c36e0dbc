//! What a take-in needs of a store.
ghost use Rattle.std.specs.Prelude.{◌≡◌, ◌≢◌, ◌+◌, ◌<◌, ◌≤◌, ◌⊎◌, List, [], ℕ, Some, None, true, false, IfErr, IfOk, OnOk, OnErr, length, map, option_map};
ghost use Rattle.ftn_addr.specs.Address.{address};
ghost use Rattle.disk_model.specs.declared.answers.Moved.TheVariants.{Absent, Done};
ghost use Rattle.node_model.specs.StoreWords.{entry_of, slot_of};
ghost use Rattle.node_model.specs.declared.store.StoreFault.TheVariants.{Disk};
ghost use Rattle.outbound_model.specs.Outbound.{Outbound};
ghost use Rattle.outbound_model.specs.OwnNames.{number_of};
ghost use Rattle.outbound_model.specs.Steps.{Drops};
ghost use Rattle.outbound_places.specs.Outbound.{Lists};
ghost use Rattle.outbound_take.specs.Calls.{AreNew, CopiesSo, FirstFor, Has, Holds, IsAction, IsLike, IsTakeFor, MarksAt, QueuesFiles, StagesAt, StagesMore, StagesTake, TakesFile, Tied, UnmarksAt, bodies_of, next_above, noted, stat_of, with_take, without_take};
ghost use Rattle.outbound_take.specs.Stand.{Breaks, Kept, Same, Settles, TakeStand, Tried, Works, mapped, told};

use bso_outbound::Kind;
use disk_model::{Marking, Moved, Name};
use ftn_addr::{Addr, Bytes};
use node_model::{NewFile, OutStat, Slot, Staged, StoreFault};
use std::alloc::Global;

/// A take of an address that stands in the own folder.
#[derive(Clone, Copy, Debug)]
pub struct TakeLeft {
    /// Its number.
    pub take: u32,
    pub own: Name,
    pub kind: Kind,
    /// Whether its number is recorded: then what it brought is queued.
    pub recorded: bool,
}

/// A store that takes outbound files in. Contracts see its takes in memory, what it tells of its outbound, and what a stop at each
/// moment may have left of that.
///
/// Every call that can answer [`StoreFault::Disk`] wants a store that isn't broken, and at every other answer each image now is
/// what is told.
pub trait Outgoing {
    ghost stand: { Self → TakeStand };

    /// What a store of this type says of each of its calls, beside that.
    ghost rule: { Self → Self → Type 0 };

    /// The take with the least number of those that stand for an address, and have a number above that one, where one is given.
    /// It takes no memory.
    fn first_left(&self, dest: &Addr, above: Option<u32>) -> Option<TakeLeft>
        ensures { FirstFor (address dest.now) (next_above above) result (stand self.now).memory.left };

    /// The own name of a take. It takes no memory.
    fn own_name(&self, take: u32, dest: &Addr, kind: Kind) -> Name
        ensures number { number_of result ≡ take }
        ensures named { IsTakeFor (address dest.now) kind result };

    /// The names that stand directly in a folder of other programs, in the order of their bytes.
    fn names(&mut self, folder: &Bytes) -> Result<Vec<Bytes>, StoreFault>
        requires { (stand self.old).memory.broken ≡ None }
        ensures kept { Kept Same (Settles result) (stand self.old) (stand self.new) }
        ensures memory { Settles result → IsLike (stand self.old).memory (stand self.new).memory }
        ensures told { IfOk result (λ names. (s : Outbound) → told (stand self.old) ≡ Some s → Lists folder.now.list s.outside (map (λ name. name.list) names.items)) }
        ensures rule { rule self.old self.new }
        ensures breaks { Breaks result (stand self.new) };

    /// The size and time of an outside file. It takes no memory.
    fn look(&mut self, path: &Bytes) -> Result<Option<OutStat>, StoreFault>
        requires { (stand self.old).memory.broken ≡ None }
        ensures kept { Kept Same (Settles result) (stand self.old) (stand self.new) }
        ensures memory { Settles result → IsLike (stand self.old).memory (stand self.new).memory }
        ensures told { IfOk result (λ stat. (s : Outbound) → told (stand self.old) ≡ Some s → stat ≡ option_map stat_of (s.outside path.now.list)) }
        ensures rule { rule self.old self.new }
        ensures breaks { Breaks result (stand self.new) };

    /// Draws the number of the next take: no take has or had it.
    fn next_take(&mut self) -> Result<u32, StoreFault>
        requires { (stand self.old).memory.broken ≡ None }
        ensures kept { Kept Same (Settles result) (stand self.old) (stand self.new) }
        ensures drawn { IfOk result (λ take. Holds (stand self.old).memory.left (Some take) (stand self.old).memory.undone (stand self.new).memory) }
        ensures err { OnErr result (Settles result → IsLike (stand self.old).memory (stand self.new).memory) }
        ensures rule { rule self.old self.new }
        ensures breaks { Breaks result (stand self.new) };

    /// Moves an outside file into the own folder, under the number that was drawn. It takes no memory.
    fn take_file(&mut self, path: &Bytes, own: &Name) -> Result<Moved, StoreFault>
        requires whole { (stand self.old).memory.broken ≡ None }
        requires drawn { (stand self.old).memory.drawn ≡ Some (number_of own.now) }
        ensures kept { Kept (Tried result (TakesFile path.now.list own.now)) (Settles result) (stand self.old) (stand self.new) }
        ensures done { IfOk result (λ moved. moved ≡ Done → Holds (with_take own.now (stand self.old).memory.left) None (stand self.old).memory.undone (stand self.new).memory) }
        ensures absent { IfOk result (λ moved. moved ≡ Absent → IsLike (stand self.old).memory (stand self.new).memory) }
        ensures err { OnErr result (Settles result → IsLike (stand self.old).memory (stand self.new).memory) }
        ensures rule { rule self.old self.new }
        ensures breaks { Breaks result (stand self.new) };

    /// The bytes of a take.
    fn read_take(&mut self, alloc: Global, own: &Name) -> Result<Bytes, StoreFault>
        requires whole { (stand self.old).memory.broken ≡ None }
        requires left { Has own.now false (stand self.old).memory.left }
        ensures kept { Kept Same (Settles result) (stand self.old) (stand self.new) }
        ensures memory { Settles result → IsLike (stand self.old).memory (stand self.new).memory }
        ensures told { IfOk result (λ bytes. (s : Outbound) → told (stand self.old) ≡ Some s → s.takes own.now ≡ Some bytes.list) }
        ensures rule { rule self.old self.new }
        ensures breaks { Breaks result (stand self.new) };

    /// Copies an outside file of at most 2,147,483,647 bytes under the next queue number. A stop loses it.
    fn stage_copy(&mut self, path: &Bytes) -> Result<Staged, StoreFault>
        requires { (stand self.old).memory.broken ≡ None }
        ensures kept { Kept Same (Settles result) (stand self.old) (stand self.new) }
        ensures memory { IfOk result (λ staged. CopiesSo staged (stand self.old).memory (stand self.new).memory) }
        ensures err { OnErr result (Settles result → IsLike (stand self.old).memory (stand self.new).memory) }
        ensures told { IfOk result (λ staged. (s : Outbound) → told (stand self.old) ≡ Some s → StagesAt path.now.list staged s (stand self.old).content (stand self.new).content) }
        ensures rule { rule self.old self.new }
        ensures breaks { Breaks result (stand self.new) };

    /// Copies a take under the next queue number. It answers that and the take's length. A stop loses it.
    fn stage_own(&mut self, own: &Name) -> Result<(u32, u64), StoreFault>
        requires whole { (stand self.old).memory.broken ≡ None }
        requires left { Has own.now false (stand self.old).memory.left }
        ensures kept { Kept Same (Settles result) (stand self.old) (stand self.new) }
        ensures memory { IfOk result (λ staged. StagesMore staged.0 staged.1 (stand self.old).memory (stand self.new).memory) }
        ensures err { OnErr result (Settles result → IsLike (stand self.old).memory (stand self.new).memory) }
        ensures told { IfOk result (λ staged. (s : Outbound) → told (stand self.old) ≡ Some s → StagesTake own.now staged.0 staged.1 s (stand self.old).content (stand self.new).content) }
        ensures rule { rule self.old self.new }
        ensures breaks { Breaks result (stand self.new) };

    /// Queues staged files and records the take that brought them, in one durable change.
    fn queue_all(
        &mut self,
        alloc: Global,
        own: &Name,
        files: &[NewFile],
    ) -> Result<Vec<Slot>, StoreFault>
        requires whole { (stand self.old).memory.broken ≡ None }
        requires left { Has own.now false (stand self.old).memory.left }
        requires staged { AreNew (map entry_of files.now) (stand self.old).memory }
        ensures kept { Kept (Tried (mapped result (λ slots. map slot_of slots.items)) (QueuesFiles (bodies_of (stand self.old).content) own.now (map entry_of files.now))) (Settles result) (stand self.old) (stand self.new) }
        ensures noted { OnOk result ((stand self.new).memory.left ≡ map (noted (number_of own.now)) (stand self.old).memory.left) }
        ensures whole { Settles result → (stand self.new).memory.broken ≡ None }
        ensures rule { rule self.old self.new }
        ensures breaks { Breaks result (stand self.new) };

    /// Removes a take whose number is recorded. It takes no memory.
    fn finish_take(&mut self, own: &Name) -> Result<(), StoreFault>
        requires whole { (stand self.old).memory.broken ≡ None }
        requires recorded { Has own.now true (stand self.old).memory.left }
        ensures kept { Kept (Tried result (λ _. Drops own.now)) (Settles result) (stand self.old) (stand self.new) }
        ensures memory { OnOk result (Holds (without_take own.now (stand self.old).memory.left) (stand self.old).memory.drawn (stand self.old).memory.undone (stand self.new).memory) }
        ensures err { OnErr result (Settles result → IsLike (stand self.old).memory (stand self.new).memory) }
        ensures rule { rule self.old self.new }
        ensures breaks { Breaks result (stand self.new) };

    /// Does the next action that is to be done for an address, and records it. It answers the number of the file whose action it
    /// was, or `None` where nothing is to be done.
    fn act_next(&mut self, dest: &Addr) -> Result<Option<u32>, StoreFault>
        requires { (stand self.old).memory.broken ≡ None }
        ensures works { Works IsAction (Settles result) [] (stand self.old) (stand self.new) }
        ensures left { Settles result → (stand self.new).memory.left ≡ (stand self.old).memory.left }
        ensures whole { Settles result → (stand self.new).memory.broken ≡ None }
        ensures fewer { IfOk result (λ acted. acted ≢ None → (stand self.new).memory.undone < (stand self.old).memory.undone) }
        ensures rule { rule self.old self.new }
        ensures breaks { Breaks result (stand self.new) };

    /// Marks the outbound of an address as busy. It takes no memory.
    fn mark(&mut self, addr: &Addr, path: &Bytes, text: &Bytes) -> Result<Marking, StoreFault>
        requires { (stand self.old).memory.broken ≡ None }
        ensures kept { Kept (Tried result (MarksAt path.now.list text.now.list)) (Settles result) (stand self.old) (stand self.new) }
        ensures memory { Settles result → IsLike (stand self.old).memory (stand self.new).memory }
        ensures rule { rule self.old self.new }
        ensures breaks { Breaks result (stand self.new) }
        ensures fault { IfErr result (λ fault. fault ≡ Disk) };

    /// Takes the mark away. It takes no memory.
    fn unmark(&mut self, addr: &Addr, path: &Bytes, text: &Bytes) -> Result<(), StoreFault>
        requires { (stand self.old).memory.broken ≡ None }
        ensures kept { Kept (Tried result (λ _. UnmarksAt path.now.list text.now.list)) (Settles result) (stand self.old) (stand self.new) }
        ensures memory { Settles result → IsLike (stand self.old).memory (stand self.new).memory }
        ensures rule { rule self.old self.new }
        ensures breaks { Breaks result (stand self.new) }
        ensures fault { IfErr result (λ fault. fault ≡ Disk) };

    /// A store that tells its takes has no others. It does nothing.
    fn tied(&self)
        requires { (stand self.now).memory.broken ≡ None }
        ensures { Tied (stand self.now).memory (told (stand self.now)) };
}
