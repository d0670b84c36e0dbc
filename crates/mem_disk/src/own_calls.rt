//! The own folder of a disk in memory.
ghost use Rattle.std.specs.Prelude.{◌≡◌, IfOk};
ghost use Rattle.mem_disk.specs.MemoryDisk.{mem_files, mem_images, mem_moment, FailsAsSet};
ghost use Rattle.mem_disk.specs.declared.call.Call.TheVariants.{Wrote};

use crate::block::Block;
use crate::call::Call;
use crate::disk::MemDisk;
use disk_model::{Disk, ListFault, Made, Name};
use ftn_addr::{Failed, NoMemory};
use std::alloc::Global;

impl Disk for MemDisk {
    ghost use Rattle.std.specs.Prelude.{true};
    ghost use Rattle.std.proofs.Common.{refl};
    ghost use Rattle.mem_disk.specs.Holding.{shown};
    ghost use Rattle.mem_disk.specs.ReadLaw.{mem_as_read};

    ghost files = { mem_files };

    ghost images = { mem_images };

    ghost moment = { mem_moment };

    ghost fault_count = { λ d. d.faults };

    ghost as_read = { mem_as_read };

    ghost rule = { FailsAsSet };

    ghost tells = { true };

    ghost content = { λ d. shown d.held };

    ghost reads = { λ _ _ is. (refl, is) };

    ghost told = { λ _ _. refl };

    fn faults(&self) -> u64 {
        self.faults
    }

    fn stat(&mut self, name: &Name) -> Result<Option<u64>, Failed> {
        let len = self.held.len_of(name);
        self.pass()?;
        Ok(len)
    }

    fn list(&mut self) -> Result<Vec<Name>, ListFault> {
        let Ok(names) = self.held.names(self.alloc) else {
            return Err(ListFault::NoMemory);
        };
        match self.pass() {
            Ok(()) => Ok(names),
            Err(_) => Err(ListFault::Failed),
        }
    }

    fn read_at(&mut self, name: &Name, at: u64, out: &mut [u8]) -> Result<(), Failed> {
        self.pass()?;
        self.held.read(name, at as usize, out);
        Ok(())
    }

    fn create(&mut self, name: &Name) -> Result<Made, Failed> {
        if self.held.stands(name) {
            self.pass()?;
            return Ok(Made::Exists);
        }
        match self.note(Ok(Call::Created(*name))) {
            Ok(()) => Ok(Made::New),
            Err(_) => Err(Failed),
        }
    }

    fn write_at(&mut self, name: &Name, at: u64, bytes: &[u8]) -> Result<(), Failed> {
        let call = wrote(self.alloc, name, at as usize, bytes);
        self.enter(call)
    }

    fn cut(&mut self, name: &Name, len: u64) -> Result<(), Failed> {
        self.note(Ok(Call::Shortened(*name, len as usize)))
    }

    fn sync(&mut self, name: &Name) -> Result<(), Failed> {
        self.note(Ok(Call::Synced(*name)))
    }

    fn rename(&mut self, from: &Name, to: &Name) -> Result<(), Failed> {
        self.note(Ok(Call::Renamed(*from, *to)))
    }

    fn remove(&mut self, name: &Name) -> Result<(), Failed> {
        self.note(Ok(Call::Removed(*name)))
    }
}

fn wrote(alloc: Global, name: &Name, at: usize, bytes: &[u8]) -> Result<Call, NoMemory>
    ensures { IfOk result (λ it. it ≡ Wrote name.now at bytes.now) }
{
    Ok(Call::Wrote(*name, at, Block::from_slice(alloc, bytes)?))
}
