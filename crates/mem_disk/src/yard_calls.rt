//! The outside folders of a disk in memory.
ghost use Rattle.std.specs.Prelude.{◌≡◌, map, IfOk};
ghost use Rattle.disk_model.specs.Folders.{ListsFolder};
ghost use Rattle.mem_disk.specs.Holding.{under};
ghost use Rattle.mem_disk.specs.declared.call.Call.TheVariants.{Given};

use crate::block::Block;
use crate::call::Call;
use crate::disk::MemDisk;
use crate::holdings::Holdings;
use crate::outside_files::{in_order, names_in, path_in};
use disk_model::{Copied, Giving, Hit, ListFault, Marking, Moved, Name, OutStat, Yard};
use ftn_addr::{Bytes, Failed, NoMemory};
use std::alloc::Global;

impl Yard for MemDisk {
    fn look(&mut self, path: &Bytes) -> Result<Option<OutStat>, Failed> {
        let Ok(path) = Block::from_bytes(self.alloc, path) else {
            return Err(self.no_memory());
        };
        let stat = self.held.stat_out(&path);
        self.pass()?;
        Ok(stat)
    }

    fn take(&mut self, path: &Bytes, own: &Name) -> Result<Moved, Failed> {
        let Ok(path) = Block::from_bytes(self.alloc, path) else {
            return Err(self.no_memory());
        };
        if !self.held.stands_out(&path) {
            self.pass()?;
            return Ok(Moved::Absent);
        }
        match self.note(Ok(Call::Moved(path, *own))) {
            Ok(()) => Ok(Moved::Done),
            Err(_) => Err(Failed),
        }
    }

    fn copy(&mut self, path: &Bytes, own: &Name, most: u64) -> Result<Copied, Failed> {
        let Ok(path) = Block::from_bytes(self.alloc, path) else {
            return Err(self.no_memory());
        };
        let Some(stat) = self.held.stat_out(&path) else {
            match self.pass() {
                Ok(()) => return Ok(Copied::Absent),
                Err(_) => return Err(Failed),
            }
        };
        if stat.size > most {
            match self.note(Ok(Call::Removed(*own))) {
                Ok(()) => return Ok(Copied::Over),
                Err(_) => return Err(Failed),
            }
        }
        let Ok(bytes) = self.held.copy_out(self.alloc, &path) else {
            return Err(self.no_memory());
        };
        match self.note(Ok(Call::Copied(*own, bytes))) {
            Ok(()) => Ok(Copied::Copied(stat)),
            Err(_) => Err(Failed),
        }
    }

    fn remove_if(&mut self, path: &Bytes, was: &OutStat) -> Result<Hit, Failed> {
        let Ok(path) = Block::from_bytes(self.alloc, path) else {
            return Err(self.no_memory());
        };
        if !self.held.is_as_it_was(&path, was) {
            self.pass()?;
            return Ok(Hit::Other);
        }
        match self.note(Ok(Call::LostOut(path))) {
            Ok(()) => Ok(Hit::Done),
            Err(_) => Err(Failed),
        }
    }

    fn cut_if(&mut self, path: &Bytes, was: &OutStat) -> Result<Hit, Failed> {
        let Ok(path) = Block::from_bytes(self.alloc, path) else {
            return Err(self.no_memory());
        };
        if !self.held.is_as_it_was(&path, was) {
            self.pass()?;
            return Ok(Hit::Other);
        }
        match self.note(Ok(Call::PutOut(path, Block::empty(self.alloc), was.time))) {
            Ok(()) => Ok(Hit::Done),
            Err(_) => Err(Failed),
        }
    }

    fn mark(&mut self, path: &Bytes, text: &Bytes) -> Result<Marking, Failed> {
        let Ok(path) = Block::from_bytes(self.alloc, path) else {
            return Err(self.no_memory());
        };
        if self.held.stands_out(&path) {
            match self.pass() {
                Ok(()) => return Ok(Marking::Exists),
                Err(_) => return Err(Failed),
            }
        }
        let Ok(text) = Block::from_bytes(self.alloc, text) else {
            return Err(self.no_memory());
        };
        match self.note(Ok(Call::PutOut(path, text, 0))) {
            Ok(()) => Ok(Marking::Made),
            Err(_) => Err(Failed),
        }
    }

    fn unmark(&mut self, path: &Bytes, text: &Bytes) -> Result<Hit, Failed> {
        let Ok(path) = Block::from_bytes(self.alloc, path) else {
            return Err(self.no_memory());
        };
        if !self.held.has_text(&path, text.as_slice()) {
            self.pass()?;
            return Ok(Hit::Other);
        }
        match self.note(Ok(Call::LostOut(path))) {
            Ok(()) => Ok(Hit::Done),
            Err(_) => Err(Failed),
        }
    }

    fn names(&mut self, folder: &Bytes) -> Result<Vec<Bytes>, ListFault> {
        let Ok(names) = listed(self.alloc, &self.held, folder.as_slice()) else {
            return Err(ListFault::NoMemory);
        };
        match self.pass() {
            Ok(()) => Ok(names),
            Err(_) => Err(ListFault::Failed),
        }
    }

    fn give(&mut self, own: &Name, folder: &Bytes, name: &Bytes) -> Result<Giving, Failed> {
        let Ok(path) = path_in(self.alloc, folder, name) else {
            return Err(self.no_memory());
        };
        if self.held.in_use(&path) {
            self.pass()?;
            return Ok(Giving::Taken);
        }
        let Ok(call) = given(self.alloc, own, folder, name, path) else {
            return Err(self.no_memory());
        };
        match self.note(Ok(call)) {
            Ok(()) => Ok(Giving::Given),
            Err(_) => Err(Failed),
        }
    }
}

fn given(
    alloc: Global,
    own: &Name,
    folder: &Bytes,
    name: &Bytes,
    path: Block,
) -> Result<Call, NoMemory>
    ensures { IfOk result (λ it. it ≡ Given own.now folder.now.list name.now.list path) }
{
    let folder = Block::from_bytes(alloc, folder)?;
    let name = Block::from_bytes(alloc, name)?;
    Ok(Call::Given(*own, folder, name, path))
}

fn listed(alloc: Global, held: &Holdings, folder: &[u8]) -> Result<Vec<Bytes>, NoMemory>
    ensures { IfOk result (λ names. ListsFolder folder.now (λ path. under path held.now.outside) (map (λ name. name.list) names.items)) }
{
    let paths = held.paths(alloc)?;
    let found = names_in(alloc, folder, &paths)?;
    in_order(alloc, found)
}
