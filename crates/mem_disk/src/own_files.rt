//! What the own files of a disk in memory are.
ghost use Rattle.std.specs.Prelude.{◌≡◌, ◌+◌, ◌^◌, ◌<◌, ◌≤◌, length, take, drop, is_some, option_map, map, IfOk, IfSome};
ghost use Rattle.disk_model.specs.Folders.{Ascend};
ghost use Rattle.mem_disk.specs.Holding.{under};
ghost use Rattle.mem_disk.specs.Picks.{changed_at, touched};
ghost use Rattle.std.specs.Cmp.Lexicographic.{slice_cmp};
ghost use Rattle.std.specs.List.Sorted.{IsStrictlySortedBy};
ghost use Rattle.std.specs.Map.{keys_of};
ghost use Rattle.std.specs.Ordering.{nat_cmp};

use crate::call::Call;
use crate::holdings::{Holdings, is_same};
use disk_model::Name;
use ftn_addr::NoMemory;
use std::alloc::Global;

impl Holdings {
    /// Whether an own file stands under the name.
    pub fn stands(&self, name: &Name) -> bool
        ensures { result ≡ is_some (under name.now self.now.own) }
    {
        self.own.contains_key(name)
    }

    /// How many of the own files that a call names have unsynced changes.
    pub fn changed_by(&self, call: &Call) -> usize
        ensures exact { result ≡ touched call.now self.now.own }
        ensures few { result ≤ 2 }
        ensures ordered { IsStrictlySortedBy (slice_cmp nat_cmp) (keys_of self.now.own) }
        ensures small { length self.now.own < 2 ^ 63 }
    {
        let _files = self.own.len();
        match call {
            Call::Wrote(name, ..)
            | Call::Shortened(name, _)
            | Call::Synced(name)
            | Call::Created(name)
            | Call::Removed(name)
            | Call::Moved(_, name)
            | Call::Copied(name, _)
            | Call::Given(name, ..) => self.changed_at(name),
            Call::Renamed(from, to) if is_same(from, to) => self.changed_at(from),
            Call::Renamed(from, to) => self.changed_at(from) + self.changed_at(to),
            Call::Nothing | Call::Placed(..) | Call::PutOut(..) | Call::LostOut(_) => 0,
        }
    }

    fn changed_at(&self, name: &Name) -> usize
        ensures exact { result ≡ changed_at name.now self.now.own }
        ensures few { result ≤ 1 }
    {
        match self.own.get(name) {
            Some(file) if file.is_changed() => 1,
            _ => 0,
        }
    }

    /// The length of an own file.
    pub fn len_of(&self, name: &Name) -> Option<u64>
        ensures { result ≡ option_map (λ f. length f.written) (under name.now self.now.own) }
    {
        match self.own.get(name) {
            Some(file) => Some(file.as_slice().len() as u64),
            None => None,
        }
    }

    /// Fills `out` from an own file, where it has so many bytes.
    pub fn read(&self, name: &Name, at: usize, out: &mut [u8])
        ensures { IfSome (under name.now self.now.own) (λ f. at + length out.old ≤ length f.written → out.new ≡ take (length out.old) (drop at f.written)) }
    {
        if let Some(file) = self.own.get(name) {
            copy_out(file.as_slice(), at, out);
        }
    }

    /// The names of the own files, in the order of their bytes.
    pub fn names(&self, alloc: Global) -> Result<Vec<Name>, NoMemory>
        ensures names { IfOk result (λ names. names.items ≡ map (λ e. e.0) self.now.own) }
        ensures ascend { IfOk result (λ names. Ascend names.items) }
    {
        let names = self.own.keys().copied().collect(alloc)?;
        Ok(names)
    }
}

fn copy_out(file: &[u8], at: usize, out: &mut [u8])
    ensures { at + length out.old ≤ length file.now → out.new ≡ take (length out.old) (drop at file.now) }
{
    if at <= file.len() && out.len() <= file.len() - at {
        out.copy_from_slice(&file[at..at + out.len()]);
    }
}
