//! Making a disk in memory, and noting its calls.
ghost use Rattle.std.specs.Prelude.{◌≡◌, ◌≤◌, ℕ, count_by, [], ◌∷◌, ◌++◌, true, Some, None, Err, MatchResult, IfOk, OnOk, OnErr};
ghost use Rattle.ftn_addr.specs.Counts.{next_count};
ghost use Rattle.disk_model.specs.Causes.{HasCause, outcome};
ghost use Rattle.disk_model.specs.Causes.Outcome.{Fails};
ghost use Rattle.disk_model.specs.Changes.{Every, Follows, Same, OnOutside, Puts};
ghost use Rattle.disk_model.specs.Moments.{Steps, AtRest};
ghost use Rattle.mem_disk.specs.Holding.{Holding, calls_in, is_call, in_part, is_sync, empty, play, replay, shown};
ghost use Rattle.disk_model.specs.World.{nothing_there};
ghost use Rattle.mem_disk.specs.declared.call.Call.TheVariants.{Nothing};
ghost use Rattle.mem_disk.specs.MemoryDisk.{mem_files, mem_moment, mem_images, Added, Unnoted, NotedAs, Plays, Tells, Unnumbered, FailsAsSet};

use crate::block::Block;
use crate::call::Call;
use crate::disk::MemDisk;
use crate::holdings::Holdings;
use ftn_addr::{Bytes, Failed, NoMemory};
use std::alloc::Global;

impl MemDisk {
    /// An empty disk with no outside files. It takes no memory.
    pub fn new(alloc: Global) -> MemDisk
        ensures tells { mem_files result nothing_there }
        ensures moment { mem_moment result ≡ 0 }
        ensures rest { AtRest mem_files mem_moment mem_images result }
    {
        MemDisk {
            alloc,
            first: Holdings::new(alloc),
            held: Holdings::new(alloc),
            log: Vec::new(alloc),
            changed: Vec::new(alloc),
            calls: 0,
            failing: Vec::new(alloc),
            faults: 0,
        }
    }

    /// The call of that number, counted from 1, is to fail. Others fail only for want of memory, and such a
    /// call takes no number.
    #[tactic(auto, using(crate::proofs::MemoryLaws::mem_tells))]
    pub fn fail_at(&mut self, call: u64) -> Result<(), NoMemory>
        ensures listed { OnOk result (self.new.failing.items ≡ self.old.failing.items ++ call ∷ []) }
        ensures err { OnErr result (self.new.failing.items ≡ self.old.failing.items) }
        ensures same { Unnoted self.old self.new }
        ensures tells { Tells self.new }
        ensures faults { self.new.faults ≡ self.old.faults }
    {
        self.failing.push(call)?;
        Ok(())
    }

    /// The number of calls since the disk was made.
    pub fn calls(&self) -> u64
        ensures { result ≡ calls_in self.now.log.items }
    {
        self.calls
    }

    /// How many of them were syncs that were made.
    pub fn syncs(&self) -> usize
        ensures { result ≡ count_by is_sync self.now.log.items }
    {
        self.log.iter().filter(|call| call.is_sync()).count()
    }

    /// Puts an outside file, as another program does. This is no call of the disk.
    #[tactic(auto, using(crate::proofs::MemoryLaws::mem_tells))]
    pub fn put_out(&mut self, path: &Bytes, bytes: &[u8], time: u64) -> Result<(), NoMemory>
        ensures read { OnOk result (Follows (OnOutside (Puts path.now.list (Some (record { bytes = bytes.now; time = time })))) (mem_files self.old) (mem_files self.new)) }
        ensures stop { OnOk result (Steps mem_moment mem_images (OnOutside (Puts path.now.list (Some (record { bytes = bytes.now; time = time })))) self.old self.new) }
        ensures same { OnErr result (Unnoted self.old self.new) }
        ensures tells { Tells self.new }
        ensures uncounted { Unnumbered self.old self.new }
        ensures faults { self.new.faults ≡ self.old.faults }
    {
        let path = Block::from_bytes(self.alloc, path)?;
        let bytes = Block::from_slice(self.alloc, bytes)?;
        self.add(Call::Placed(path, bytes, time))
    }

    // Makes the change and notes it, or finds no memory.
    #[tactic(auto, using(crate::proofs::MemoryLaws::replay_add, crate::proofs::CountLaws::counts_add))]
    fn add(&mut self, call: Call) -> Result<(), NoMemory>
        ensures ok { OnOk result (Added call self.old self.new) }
        ensures err { OnErr result (Unnoted self.old self.new) }
        ensures faults { self.new.faults ≡ self.old.faults }
        ensures failing { self.new.failing.items ≡ self.old.failing.items }
    {
        self.log.reserve(1)?;
        self.changed.reserve(1)?;
        let before = self.changed_behind(self.log.len());
        let changed = self.held.play_counting(self.alloc, &call, before)?;
        let calls = calls_with(self.calls, &self.log, &call);
        self.log.push(call).unwrap();
        self.changed.push(changed).unwrap();
        self.calls = calls;
        Ok(())
    }

    // The number of the next call.
    fn next_number(&self) -> u64
        ensures { result ≡ next_count (calls_in self.now.log.items) }
    {
        self.calls.saturating_add(1)
    }

    fn fail(&mut self) -> Failed
        ensures same { Unnoted self.old self.new }
        ensures failing { self.new.failing.items ≡ self.old.failing.items }
        ensures counted { self.new.faults ≡ next_count self.old.faults }
        ensures cause { HasCause {T = ℕ} self.old.faults self.new.faults (Err result) }
    {
        self.faults = self.faults.saturating_add(1);
        Failed
    }

    /// Notes a call of which nothing is left where it fails.
    pub(crate) fn note(&mut self, call: Result<Call, NoMemory>) -> Result<(), Failed>
        requires call { IfOk call (λ x. is_call x ≡ true) }
        requires whole { IfOk call (λ x. in_part x ≡ Nothing) }
        ensures done { OnOk result (MatchResult call (λ x. self.new.held ≡ play x self.old.held) (λ _. ⊥)) }
        ensures read { Follows (Plays call result (shown self.old.held)) (mem_files self.old) (mem_files self.new) }
        ensures stop { Steps mem_moment mem_images (Plays call result (shown self.old.held)) self.old self.new }
        ensures as_set { FailsAsSet (outcome result) self.old self.new }
        ensures cause { HasCause self.old.faults self.new.faults result }
    {
        self.enter(call)
    }

    /// Notes a call that changes nothing.
    pub(crate) fn pass(&mut self) -> Result<(), Failed>
        ensures held { OnOk result (self.new.held ≡ self.old.held) }
        ensures read { Every (mem_files self.new) (mem_files self.old) }
        ensures stop { Steps mem_moment mem_images Same self.old self.new }
        ensures as_set { FailsAsSet (outcome result) self.old self.new }
        ensures cause { HasCause self.old.faults self.new.faults result }
    {
        self.note(Ok(Call::Nothing))
    }

    /// A call that finds no memory: nothing changes but the count.
    pub(crate) fn no_memory(&mut self) -> Failed
        ensures read { Every (mem_files self.new) (mem_files self.old) }
        ensures stop { Steps mem_moment mem_images Same self.old self.new }
        ensures as_set { FailsAsSet Fails self.old self.new }
        ensures cause { HasCause {T = ℕ} self.old.faults self.new.faults (Err result) }
    {
        self.fail()
    }

    /// Notes a call. Where it is to fail, what is left of it is noted, and where there is no memory, nothing.
    pub(crate) fn enter(&mut self, call: Result<Call, NoMemory>) -> Result<(), Failed>
        requires { IfOk call (λ x. is_call x ≡ true) }
        ensures noted { NotedAs call result self.old self.new }
        ensures as_set { FailsAsSet (outcome result) self.old self.new }
        ensures cause { HasCause self.old.faults self.new.faults result }
    {
        let Ok(call) = call else {
            return Err(self.fail());
        };
        let number = self.next_number();
        let fails = self.failing.contains(&number);
        let what = if fails { call.in_part() } else { call };
        if self.add(what).is_err() {
            return Err(self.fail());
        }
        if fails { Err(self.fail()) } else { Ok(()) }
    }
}

// The number of calls with one change more.
fn calls_with(calls: u64, log: &Vec<Call>, call: &Call) -> u64
    requires { calls ≡ calls_in log.now.items }
    ensures { result ≡ calls_in (log.now.items ++ call.now ∷ []) }
{
    if call.is_call() && log.len() < usize::MAX {
        calls + 1
    } else {
        calls
    }
}
