//! What a disk in memory keeps, and each change of it.
ghost use Rattle.std.specs.Prelude.{◌≡◌, [], IfOk, OnOk, OnErr, IfSome, IsSome, false, Option};
ghost use Rattle.mem_disk.specs.Holding.{empty, play, is_named, under, adding, without};
ghost use Rattle.mem_disk.specs.Picks.{changed_in};
ghost use Rattle.mem_disk.specs.declared.call.Call.TheVariants.{Wrote, Shortened, Synced, Created, Removed, Renamed, PutOut, LostOut, Moved, Copied, Given};

use crate::block::Block;
use crate::call::Call;
use crate::file::MemFile;
use crate::outside::{GivenFile, OutsideFile};
use disk_model::Name;
use ftn_addr::NoMemory;
use std::alloc::Global;
use std::collections::BTreeMap;
use std::marker::Model;

#[derive(Drop)]
pub struct Holdings {
    pub(crate) own: BTreeMap<Name, MemFile>,
    pub(crate) outside: BTreeMap<Block, OutsideFile>,
    pub(crate) gifts: Vec<GivenFile>,
}

impl Model for Holdings {
    ghost use Rattle.mem_disk.specs.Holding.{Holding};

    ghost Value = { Holding };

    ghost view = { λ h. record { own = h.own.entries; outside = h.outside.entries; gifts = h.gifts.items } };
}

impl Holdings {
    pub fn new(alloc: Global) -> Holdings
        ensures { result ≡ empty }
    {
        Holdings {
            own: BTreeMap::new(alloc),
            outside: BTreeMap::new(alloc),
            gifts: Vec::new(alloc),
        }
    }

    pub fn duplicate(&self) -> Result<Holdings, NoMemory>
        ensures { IfOk result (λ copy. copy ≡ self.now) }
    {
        Ok(Holdings {
            own: self.own.clone()?,
            outside: self.outside.clone()?,
            gifts: self.gifts.clone()?,
        })
    }

    /// Makes the change, or finds no memory and changes nothing.
    pub fn play(&mut self, alloc: Global, call: &Call) -> Result<(), NoMemory>
        ensures ok { OnOk result (self.new ≡ play call.now self.old) }
        ensures err { OnErr result (self.new ≡ self.old) }
    {
        match call {
            Call::Nothing => Ok(()),
            Call::Wrote(name, at, bytes) => self.write_at(alloc, name, *at, bytes.as_slice()),
            Call::Shortened(name, len) => self.cut(alloc, name, *len),
            Call::Synced(name) => {
                self.sync(name);
                Ok(())
            }
            Call::Created(name) => self.create(alloc, name),
            Call::Removed(name) => {
                self.remove(name);
                Ok(())
            }
            Call::Renamed(from, to) => self.rename(alloc, from, to),
            Call::Placed(path, bytes, time) => self.put_out(alloc, path, bytes, *time),
            Call::PutOut(path, bytes, time) => self.put_out(alloc, path, bytes, *time),
            Call::LostOut(path) => {
                self.lose_out(path);
                Ok(())
            }
            Call::Moved(path, name) => self.take(alloc, path, name),
            Call::Copied(name, bytes) => self.copy(alloc, name, bytes.as_slice()),
            Call::Given(own, folder, name, path) => self.give(alloc, own, folder, name, path),
        }
    }

    /// The same, where `changed` own files had unsynced changes before. It answers how many have after it.
    #[tactic(auto, using(crate::proofs::CountLaws::changed_play))]
    pub fn play_counting(
        &mut self,
        alloc: Global,
        call: &Call,
        changed: usize,
    ) -> Result<usize, NoMemory>
        requires { changed ≡ changed_in self.old.own }
        ensures ok { OnOk result (self.new ≡ play call.now self.old) }
        ensures changed { IfOk result (λ n. n ≡ changed_in self.new.own) }
        ensures err { OnErr result (self.new ≡ self.old) }
    {
        let before = self.changed_by(call);
        self.play(alloc, call)?;
        Ok(changed + self.changed_by(call) - before)
    }

    #[tactic(auto, using(std::proofs::lemmas::Map::Steps::set_value_same))]
    fn write_at(
        &mut self,
        alloc: Global,
        name: &Name,
        at: usize,
        bytes: &[u8],
    ) -> Result<(), NoMemory>
        ensures ok { OnOk result (self.new ≡ play (Wrote name.now at bytes.now) self.old) }
        ensures err { OnErr result (self.new ≡ self.old) }
    {
        match self.own.get_mut(name) {
            Some(file) => file.write_at(alloc, at, bytes),
            None => Ok(()),
        }
    }

    #[tactic(auto, using(std::proofs::lemmas::Map::Steps::set_value_same))]
    fn cut(&mut self, alloc: Global, name: &Name, len: usize) -> Result<(), NoMemory>
        ensures ok { OnOk result (self.new ≡ play (Shortened name.now len) self.old) }
        ensures err { OnErr result (self.new ≡ self.old) }
    {
        match self.own.get_mut(name) {
            Some(file) => file.cut(alloc, len),
            None => Ok(()),
        }
    }

    fn sync(&mut self, name: &Name)
        ensures { self.new ≡ play (Synced name.now) self.old }
    {
        if let Some(file) = self.own.get_mut(name) {
            file.sync();
        }
    }

    fn create(&mut self, alloc: Global, name: &Name) -> Result<(), NoMemory>
        ensures ok { OnOk result (self.new ≡ play (Created name.now) self.old) }
        ensures err { OnErr result (self.new ≡ self.old) }
    {
        self.own
            .insert(*name, MemFile::settled(alloc, Vec::new(alloc)))?;
        Ok(())
    }

    fn remove(&mut self, name: &Name)
        ensures { self.new ≡ play (Removed name.now) self.old }
    {
        take_own(&mut self.own, name);
    }

    fn rename(&mut self, alloc: Global, from: &Name, to: &Name) -> Result<(), NoMemory>
        ensures ok { OnOk result (self.new ≡ play (Renamed from.now to.now) self.old) }
        ensures err { OnErr result (self.new ≡ self.old) }
    {
        if is_same(from, to) {
            return Ok(());
        }
        if !self.own.contains_key(from) {
            return Ok(());
        }
        move_own(alloc, &mut self.own, from, to)
    }

    fn put_out(
        &mut self,
        alloc: Global,
        path: &Block,
        bytes: &Block,
        time: u64,
    ) -> Result<(), NoMemory>
        ensures ok { OnOk result (self.new ≡ play (PutOut path.now bytes.now time) self.old) }
        ensures err { OnErr result (self.new ≡ self.old) }
    {
        let file = OutsideFile {
            bytes: bytes.copy(alloc)?,
            time,
        };
        self.outside.insert(path.copy(alloc)?, file)?;
        Ok(())
    }

    fn lose_out(&mut self, path: &Block)
        ensures { self.new ≡ play (LostOut path.now) self.old }
    {
        take_out(&mut self.outside, path);
    }

    fn take(&mut self, alloc: Global, path: &Block, name: &Name) -> Result<(), NoMemory>
        ensures ok { OnOk result (self.new ≡ play (Moved path.now name.now) self.old) }
        ensures err { OnErr result (self.new ≡ self.old) }
    {
        let Some(file) = self.outside.get(path) else {
            return Ok(());
        };
        let bytes = Vec::from_slice(alloc, file.bytes.as_slice())?;
        self.own.insert(*name, MemFile::settled(alloc, bytes))?;
        take_out(&mut self.outside, path);
        Ok(())
    }

    fn copy(&mut self, alloc: Global, name: &Name, bytes: &[u8]) -> Result<(), NoMemory>
        ensures ok { OnOk result (self.new ≡ play (Copied name.now bytes.now) self.old) }
        ensures err { OnErr result (self.new ≡ self.old) }
    {
        self.own.insert(*name, MemFile::unsynced(alloc, bytes)?)?;
        Ok(())
    }

    fn give(
        &mut self,
        alloc: Global,
        own: &Name,
        folder: &Block,
        name: &Block,
        path: &Block,
    ) -> Result<(), NoMemory>
        ensures ok { OnOk result (self.new ≡ play (Given own.now folder.now name.now path.now) self.old) }
        ensures err { OnErr result (self.new ≡ self.old) }
    {
        let Some(file) = self.own.get(own) else {
            return Ok(());
        };
        let bytes = Block::from_slice(alloc, file.as_slice())?;
        let copy = bytes.copy(alloc)?;
        let path = path.copy(alloc)?;
        let gift = GivenFile {
            own: *own,
            folder: folder.copy(alloc)?,
            name: name.copy(alloc)?,
            bytes: copy,
        };
        let before = self.gifts.len();
        self.gifts.push(gift)?;
        if self
            .outside
            .insert(path, OutsideFile { bytes, time: 0 })
            .is_err()
        {
            self.gifts.truncate(before);
            return Err(NoMemory);
        }
        take_own(&mut self.own, own);
        Ok(())
    }
}

pub(crate) fn is_same(name: &Name, other: &Name) -> bool
    ensures { result ≡ is_named name.now other.now }
{
    name.cmp(other).is_eq()
}

// The new name finds its memory before the file leaves the old one.
fn move_own(
    alloc: Global,
    files: &mut BTreeMap<Name, MemFile>,
    from: &Name,
    to: &Name,
) -> Result<(), NoMemory>
    requires apart { is_named from.now to.now ≡ false }
    requires stands { IsSome (under from.now files.old.entries) }
    ensures ok { OnOk result (IfSome (under from.now files.old.entries) (λ file. files.new.entries ≡ without from.now (adding to.now file files.old.entries))) }
    ensures err { OnErr result (files.new.entries ≡ files.old.entries) }
{
    files.insert(*to, MemFile::settled(alloc, Vec::new(alloc)))?;
    let Some(file) = take_own(files, from) else {
        unreachable!()
    };
    match files.insert(*to, file) {
        Ok(_) => Ok(()),
        Err(_) => unreachable!(),
    }
}

fn take_own(files: &mut BTreeMap<Name, MemFile>, name: &Name) -> Option<MemFile>
    ensures value { result ≡ under name.now files.old.entries }
    ensures rest { files.new.entries ≡ without name.now files.old.entries }
{
    files.remove(name)
}

fn take_out(files: &mut BTreeMap<Block, OutsideFile>, path: &Block) -> Option<OutsideFile>
    ensures value { result ≡ under path.now files.old.entries }
    ensures rest { files.new.entries ≡ without path.now files.old.entries }
{
    files.remove(path)
}
