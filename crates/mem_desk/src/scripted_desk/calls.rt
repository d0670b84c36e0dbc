//! The calls of a scripted desk.
use super::{Next, ScriptedDesk, fill, is_named};
use crate::coming::Coming;
use ftn_addr::{Addr, FileKey};
use node_model::{DataIn, Desk, DeskFault, FileIn, Knock, Offer, Role};
use std::alloc::Global;

impl Desk for ScriptedDesk {
    ghost use Rattle.std.specs.Prelude.{true};
    ghost use Rattle.mem_desk.specs.DeskStates.{counted, part_of};

    ghost alone = { true };

    ghost stand = { λ d. counted d.faults d.fulls d.broken d.reads };

    ghost part = { λ d. part_of d };

    ghost ready = { λ d. Unit {0} };

    ghost rule = { λ _ _. Unit {0} };

    fn knock(&mut self, _role: Role) -> Result<Knock, DeskFault> {
        match self.broken {
            Some(count) => Err(DeskFault::Disk(count)),
            None => Ok(Knock::Come),
        }
    }

    fn begin(
        &mut self,
        _alloc: Global,
        role: Role,
        peers: &[Addr],
        secure: bool,
        _now: u64,
    ) -> Result<u32, DeskFault> {
        if let Some(count) = self.broken {
            return Err(DeskFault::Disk(count));
        }
        match self.next {
            Next::Works | Next::ReadFails => {}
            Next::DiskFails => return Err(DeskFault::Disk(self.break_disk())),
            Next::IsFull => {
                self.fulls = self.fulls.saturating_add(1);
                return Err(DeskFault::Full);
            }
            Next::NoMemory => return Err(DeskFault::NoMemory),
        }
        self.in_session = true;
        self.begun = Some((role, peers.len(), secure));
        Ok(9)
    }

    fn offer(&mut self, alloc: Global) -> Result<Offer, DeskFault> {
        if let Some(count) = self.broken {
            return Err(DeskFault::Disk(count));
        }
        match self.next {
            Next::Works | Next::ReadFails => {}
            Next::DiskFails => return Err(DeskFault::Disk(self.break_disk())),
            Next::IsFull => {
                self.fulls = self.fulls.saturating_add(1);
                return Err(DeskFault::Full);
            }
            Next::NoMemory => return Err(DeskFault::NoMemory),
        }
        match self.queued.take() {
            None => Ok(Offer::Nothing),
            Some((number, key)) => {
                if !is_named(&key) {
                    return Ok(Offer::Nothing);
                }
                match key.copy(alloc) {
                    Ok(copy) => {
                        self.claim = Some((number, copy));
                        Ok(Offer::File(number, key))
                    }
                    Err(_) => Err(DeskFault::NoMemory),
                }
            }
        }
    }

    fn read(&mut self, at: u64, out: &mut [u8]) -> Result<usize, DeskFault> {
        if let Some(count) = self.broken {
            return Err(DeskFault::Disk(count));
        }
        match self.next {
            Next::Works | Next::IsFull | Next::NoMemory => {}
            Next::DiskFails => return Err(DeskFault::Disk(self.break_disk())),
            Next::ReadFails => {
                self.faults = self.faults.saturating_add(1);
                self.reads = self.reads.saturating_add(1);
                return Err(DeskFault::Read(self.faults));
            }
        }
        fill(self.filling, at, out);
        let left = self.claimed_size().saturating_sub(at);
        Ok((out.len() as u64).min(left) as usize)
    }

    fn got(&mut self) -> Result<(), DeskFault> {
        if let Some(count) = self.broken {
            return Err(DeskFault::Disk(count));
        }
        match self.next {
            Next::DiskFails => Err(DeskFault::Disk(self.break_disk())),
            _ => {
                self.settled = self.claimed_number();
                self.claim = None;
                Ok(())
            }
        }
    }

    fn skip(&mut self) {
        self.skipped = self.claimed_number();
        self.claim = None;
    }

    fn file_in(&mut self, alloc: Global, key: &FileKey, offset: u64) -> Result<FileIn, DeskFault> {
        self.coming = None;
        if let Some(count) = self.broken {
            return Err(DeskFault::Disk(count));
        }
        match self.next {
            Next::Works | Next::ReadFails => {}
            Next::DiskFails => return Err(DeskFault::Disk(self.break_disk())),
            Next::IsFull => {
                self.fulls = self.fulls.saturating_add(1);
                return Err(DeskFault::Full);
            }
            Next::NoMemory => return Err(DeskFault::NoMemory),
        }
        match self.answer {
            FileIn::Go => match key.copy(alloc) {
                Ok(key) => {
                    let left = key.size.saturating_sub(offset);
                    self.coming = Some(Coming {
                        key,
                        left,
                        taking: true,
                    });
                    Ok(FileIn::Go)
                }
                Err(_) => Err(DeskFault::NoMemory),
            },
            FileIn::From(place) => match key.copy(alloc) {
                Ok(key) => {
                    let left = key.size.saturating_sub(place);
                    self.coming = Some(Coming {
                        key,
                        left,
                        taking: false,
                    });
                    Ok(FileIn::From(place))
                }
                Err(_) => Err(DeskFault::NoMemory),
            },
            FileIn::Whole => {
                self.receipts = self.receipts.saturating_add(1);
                Ok(FileIn::Whole)
            }
            FileIn::Have => Ok(FileIn::Have),
            FileIn::Refuse => Ok(FileIn::Refuse),
            FileIn::Elsewhere => Ok(FileIn::Elsewhere),
            FileIn::Late => Ok(FileIn::Late),
        }
    }

    fn data_in(&mut self, bytes: &[u8]) -> Result<DataIn, DeskFault> {
        if let Some(count) = self.broken {
            return Err(DeskFault::Disk(count));
        }
        match self.next {
            Next::DiskFails => return Err(DeskFault::Disk(self.break_disk())),
            _ => {}
        }
        let count = bytes.len() as u64;
        match &mut self.coming {
            None => Err(DeskFault::Disk(self.break_disk())),
            Some(held) => {
                self.taken = self.taken.saturating_add(count);
                if held.left <= count {
                    self.coming = None;
                    self.receipts = self.receipts.saturating_add(1);
                    return Ok(DataIn::Whole);
                }
                held.left -= count;
                Ok(DataIn::More)
            }
        }
    }

    fn leave(&mut self) -> Result<(), DeskFault> {
        match self.broken {
            Some(count) => Err(DeskFault::Disk(count)),
            None => {
                self.in_session = false;
                self.claim = None;
                self.coming = None;
                Ok(())
            }
        }
    }

    ghost tied = { λ d ready. tt };
}
