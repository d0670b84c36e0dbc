//! Stops of a disk in memory.
ghost use Rattle.std.specs.Prelude.{◌≡◌, ◌≤◌, ℕ, List, [], length, take, IfOk, OnOk, IfErr, map};
ghost use Rattle.disk_model.specs.Changes.{Every};
ghost use Rattle.disk_model.specs.Moments.{AtRest};
ghost use Rattle.mem_disk.specs.Kept.{settled, chosen};
ghost use Rattle.mem_disk.specs.Holding.{calls_in, first_calls, replay, under, adding, calm, shown, picked};
ghost use Rattle.mem_disk.specs.Picks.{changed_in, picks_of, digit_for, rest_for, digit_of, stopped_files};
ghost use Rattle.mem_disk.specs.MemoryDisk.{mem_files, mem_moment, mem_images, moment_after, Tells};

use crate::disk::MemDisk;
use crate::file::MemFile;
use crate::holdings::Holdings;
use disk_model::Name;
use ftn_addr::NoMemory;
use std::alloc::Global;
use std::collections::BTreeMap;

impl MemDisk {
    /// A disk as a stop after so many calls may have left it. The files with unsynced changes, in the order
    /// of their names, each take the next digit of `pick` in base 4, the lowest first: 0 keeps what the last
    /// sync left, 1 has all as written, 2 and 3 have the written length with each unsynced byte as 255
    /// minus the written one, and as 1. Outside files and gifts are those after that many calls. The new
    /// disk has made no call, counts no fault and has no call that is to fail.
    #[tactic(auto, using(crate::proofs::MemoryLaws::mem_tells))]
    pub fn stop(self, after: u64, pick: u64) -> Result<MemDisk, (MemDisk, NoMemory)>
        requires { after ≤ calls_in self.log.items }
        ensures image { IfOk result (λ disk. Every (mem_files disk) (mem_images self (moment_after after self))) }
        ensures exact { IfOk result (λ disk. let h = replay self.first (first_calls after self.log.items) in mem_files disk (picked (digit_of pick h.own) h)) }
        ensures tells { IfOk result Tells }
        ensures rest { IfOk result (AtRest mem_files mem_moment mem_images) }
        ensures fresh { IfOk result (λ disk. (disk.log.items ≡ []) × (disk.faults ≡ 0) × (disk.failing.items ≡ [])) }
        ensures err { IfErr result (λ e. e.0 ≡ self) }
    {
        match self.stopped(after, pick) {
            Ok(disk) => Ok(disk),
            Err(e) => Err((self, e)),
        }
    }

    fn stopped(&self, after: u64, pick: u64) -> Result<MemDisk, NoMemory>
        ensures exact { IfOk result (λ disk. let h = replay self.now.first (first_calls after self.now.log.items) in shown disk.held ≡ picked (digit_of pick h.own) h) }
        ensures fresh { IfOk result (λ disk. (disk.log.items ≡ []) × (disk.faults ≡ 0) × (disk.failing.items ≡ [])) }
    {
        let kept = self.kept_after(after)?;
        let first = kept.stopped(self.alloc, pick)?;
        let held = first.duplicate()?;
        Ok(MemDisk {
            alloc: self.alloc,
            first,
            held,
            log: Vec::new(self.alloc),
            changed: Vec::new(self.alloc),
            calls: 0,
            failing: Vec::new(self.alloc),
            faults: 0,
        })
    }

    /// How many numbers pick the images of a stop after so many calls: 4 to the number of files with
    /// unsynced changes, or 2^64 - 1 where there are more than 31. It takes no memory.
    pub fn picks(&self, after: u64) -> u64
        ensures { result ≡ picks_of (changed_in (replay self.now.first (first_calls after self.now.log.items)).own) }
    {
        picks_of(self.changed_behind(self.place_after(after)))
    }

    // How many own files had unsynced changes behind so many items of the log.
    pub(crate) fn changed_behind(&self, place: usize) -> usize
        requires { place ≤ length self.now.log.items }
        ensures { result ≡ changed_in (replay self.now.first (take place self.now.log.items)).own }
    {
        if 0 < place {
            self.changed[place - 1]
        } else {
            0
        }
    }

    // How many items of the log stand before the call behind so many.
    fn place_after(&self, after: u64) -> usize
        ensures { result ≡ length (first_calls after self.now.log.items) }
    {
        let mut left = after;
        for (place, call) in self.log.iter().enumerate() {
            if call.is_call() {
                if left == 0 {
                    return place;
                }
                left -= 1;
            }
        }
        self.log.len()
    }

    // What was kept after so many calls.
    fn kept_after(&self, after: u64) -> Result<Holdings, NoMemory>
        ensures { IfOk result (λ kept. kept ≡ replay self.now.first (first_calls after self.now.log.items)) }
    {
        let mut kept = self.first.duplicate()?;
        let mut left = after;
        for call in &self.log {
            if call.is_call() {
                if left == 0 {
                    return Ok(kept);
                }
                left -= 1;
            }
            kept.play(self.alloc, call)?;
        }
        Ok(kept)
    }
}

impl Holdings {
    // What a stop leaves of all that is kept.
    fn stopped(self, alloc: Global, pick: u64) -> Result<Holdings, NoMemory>
        ensures world { IfOk result (λ h. shown h ≡ picked (digit_of pick self.own) self) }
        ensures calm { IfOk result (λ h. h ≡ calm h) }
    {
        let Holdings {
            own,
            outside,
            gifts,
        } = self;
        let own = stopped_files(alloc, own, pick)?;
        Ok(Holdings {
            own,
            outside,
            gifts,
        })
    }
}

fn stopped_files(
    alloc: Global,
    mut own: BTreeMap<Name, MemFile>,
    mut pick: u64,
) -> Result<BTreeMap<Name, MemFile>, NoMemory>
    ensures chosen { IfOk result (λ files. (q : List ℕ) → under q files.entries ≡ under q (stopped_files pick own.entries)) }
    ensures calm { IfOk result (λ files. map (λ e. (e.0, settled e.1.written)) files.entries ≡ files.entries) }
{
    let mut files = BTreeMap::new(alloc);
    while let Some(entry) = own.pop_first() {
        pick = add_stopped(alloc, &mut files, entry, pick)?;
    }
    Ok(files)
}

// Adds what a stop leaves of a file, and answers the pick for the next ones.
fn add_stopped(
    alloc: Global,
    files: &mut BTreeMap<Name, MemFile>,
    entry: (Name, MemFile),
    pick: u64,
) -> Result<u64, NoMemory>
    ensures added { OnOk result (files.new.entries ≡ adding entry.0 (settled (chosen (digit_for pick entry.1) entry.1)) files.old.entries) }
    ensures rest { IfOk result (λ rest. rest ≡ rest_for pick entry.1) }
{
    let (name, file) = entry;
    let bytes = file.chosen(alloc, digit_for(pick, &file))?;
    files.insert(name, MemFile::settled(alloc, bytes))?;
    Ok(rest_for(pick, &file))
}

fn picks_of(changed: usize) -> u64
    ensures { result ≡ picks_of changed }
{
    if 31 < changed {
        return u64::MAX;
    }
    4u64.pow(changed as u32)
}

fn digit_for(pick: u64, file: &MemFile) -> u64
    ensures { result ≡ digit_for pick file.now }
{
    if file.is_changed() { pick % 4 } else { 0 }
}

fn rest_for(pick: u64, file: &MemFile) -> u64
    ensures { result ≡ rest_for pick file.now }
{
    if file.is_changed() { pick / 4 } else { pick }
}
