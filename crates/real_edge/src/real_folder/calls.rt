//! The calls of a disk and a yard, each counted where the system failed.
ghost use Rattle.ftn_addr.specs.Counts.{next_count};
ghost use Rattle.std.specs.Prelude.{◌≡◌, ◌≤◌, Some, IsSome, IfOk, IfErr, OnOk, OnErr};
ghost use Rattle.disk_model.specs.Causes.{HasCause, ListsWithCause};

use super::own::Folder;
use crate::error::{Answer, ListError, SystemError};
use disk_model::{Copied, Disk, Giving, Hit, ListFault, Made, Marking, Moved, Name, OutStat, Yard};
use ftn_addr::{Bytes, Failed, NoMemory};
use std::rt::Files;

/// The mailer's own folder in the file system, and the folders beside it.
///
/// It counts a fault at each call of the system that fails, and tells no content. What the system doesn't let it see, open or change
/// of other programs' files is no fault.
#[derive(Drop)]
pub struct RealFolder<R: Files> {
    folder: Folder<R>,
    faults: u64,
    last_error: Option<SystemError>,
    ghost explained: { 1 ≤ faults → IsSome last_error },
}

impl<R: Files + AllocGlobal + Clone + Drop> RealFolder<R> {
    /// The folder of that path, which should be there. Nothing is called yet.
    pub fn new(files: R, path: &str) -> Result<RealFolder<R>, NoMemory>
        ensures { IfOk result (λ folder. folder.faults ≡ 0) }
    {
        let folder = Folder::new(files.alloc(), files, path)?;
        Ok(RealFolder {
            folder,
            faults: 0,
            last_error: None,
        })
    }

    /// The last call of the system that failed or was passed over, and why. Where a fault is counted there is one.
    pub fn last_error(&self) -> Option<SystemError>
        ensures last { result ≡ self.now.last_error }
        ensures counted { 1 ≤ self.now.faults → IsSome result }
    {
        self.last_error
    }

    fn add_fault(&mut self, error: SystemError)
        ensures counted { self.new.faults ≡ next_count self.old.faults }
        ensures kept { self.new.last_error ≡ Some error }
    {
        self.last_error = Some(error);
        self.faults = self.faults.saturating_add(1);
    }

    // Counts an answer where it is an error.
    fn count<T>(&mut self, answer: Answer<T>) -> Result<T, Failed>
        ensures ok { OnOk result (self.new.faults ≡ self.old.faults) }
        ensures err { OnErr result (self.new.faults ≡ next_count self.old.faults) }
        ensures kept { IfErr answer (λ e. self.new.last_error ≡ Some e) }
        ensures cause { HasCause self.old.faults self.new.faults result }
    {
        match answer {
            Ok(it) => Ok(it),
            Err(e) => {
                self.add_fault(e);
                Err(Failed)
            }
        }
    }

    // Keeps the reason of a refusal that failed nothing.
    fn note_refusal(&mut self)
        ensures { self.new.faults ≡ self.old.faults }
    {
        if let Some(error) = self.folder.refusals.take() {
            self.last_error = Some(error);
        }
    }

    // Counts the answer of a call on a file of another program.
    fn count_outside<T>(&mut self, answer: Answer<T>) -> Result<T, Failed>
        ensures cause { HasCause self.old.faults self.new.faults result }
    {
        self.note_refusal();
        self.count(answer)
    }

    // The same of a list.
    fn count_list<T>(&mut self, answer: Result<Vec<T>, ListError>) -> Result<Vec<T>, ListFault>
        ensures cause { ListsWithCause self.old.faults self.new.faults result }
    {
        match answer {
            Ok(names) => Ok(names),
            Err(ListError::NoMemory) => Err(ListFault::NoMemory),
            Err(ListError::System(e)) => {
                self.add_fault(e);
                Err(ListFault::Failed)
            }
        }
    }
}

impl<R: Files + AllocGlobal + Clone + Drop> Disk for RealFolder<R> {
    ghost use Rattle.std.specs.Prelude.{⊤, false};
    ghost use Rattle.std.proofs.lemmas.Bool.{false≢true};
    ghost use Rattle.disk_model.specs.World.{nothing_there};

    ghost files = { λ _ _. ⊥ };

    ghost images = { λ _ _ _. ⊥ };

    ghost moment = { λ _. 0 };

    ghost fault_count = { λ d. d.faults };

    ghost as_read = { λ _ _ none. absurd none };

    ghost rule = { λ _ _ _. ⊤ };

    ghost tells = { false };

    ghost content = { λ _. nothing_there };

    ghost reads = { λ _ _ none. absurd none };

    ghost told = { λ yes _. absurd (false≢true yes) };

    fn faults(&self) -> u64 {
        self.faults
    }

    fn stat(&mut self, name: &Name) -> Result<Option<u64>, Failed> {
        let answer = self.folder.len_of(name);
        let len = self.count(answer)?;
        Ok(len)
    }

    fn list(&mut self) -> Result<Vec<Name>, ListFault> {
        let answer = self.folder.list();
        match self.count_list(answer) {
            Ok(names) => Ok(names),
            Err(e) => Err(e),
        }
    }

    fn read_at(&mut self, name: &Name, at: u64, out: &mut [u8]) -> Result<(), Failed> {
        let answer = self.folder.read(name, at, out);
        self.count(answer)?;
        Ok(())
    }

    fn create(&mut self, name: &Name) -> Result<Made, Failed> {
        let answer = self.folder.create(name);
        let made = self.count(answer)?;
        Ok(made)
    }

    fn write_at(&mut self, name: &Name, at: u64, bytes: &[u8]) -> Result<(), Failed> {
        let answer = self.folder.write(name, at, bytes);
        self.count(answer)?;
        Ok(())
    }

    fn cut(&mut self, name: &Name, len: u64) -> Result<(), Failed> {
        let answer = self.folder.cut(name, len);
        self.count(answer)?;
        Ok(())
    }

    fn sync(&mut self, name: &Name) -> Result<(), Failed> {
        let answer = self.folder.sync(name);
        self.count(answer)?;
        Ok(())
    }

    fn rename(&mut self, from: &Name, to: &Name) -> Result<(), Failed> {
        let answer = self.folder.rename(from, to);
        self.count(answer)?;
        Ok(())
    }

    fn remove(&mut self, name: &Name) -> Result<(), Failed> {
        let answer = self.folder.remove(name);
        self.count(answer)?;
        Ok(())
    }
}

impl<R: Files + AllocGlobal + Clone + Drop> Yard for RealFolder<R> {
    fn look(&mut self, path: &Bytes) -> Result<Option<OutStat>, Failed> {
        let answer = self.folder.look(path);
        let stat = self.count_outside(answer)?;
        Ok(stat)
    }

    fn names(&mut self, folder: &Bytes) -> Result<Vec<Bytes>, ListFault> {
        let answer = self.folder.names(folder);
        self.note_refusal();
        match self.count_list(answer) {
            Ok(names) => Ok(names),
            Err(e) => Err(e),
        }
    }

    fn take(&mut self, path: &Bytes, own: &Name) -> Result<Moved, Failed> {
        let answer = self.folder.take(path, own);
        let moved = self.count_outside(answer)?;
        Ok(moved)
    }

    fn copy(&mut self, path: &Bytes, own: &Name, most: u64) -> Result<Copied, Failed> {
        let answer = self.folder.copy(path, own, most);
        let copied = self.count_outside(answer)?;
        Ok(copied)
    }

    fn remove_if(&mut self, path: &Bytes, was: &OutStat) -> Result<Hit, Failed> {
        let answer = self.folder.remove_if(path, was);
        let hit = self.count_outside(answer)?;
        Ok(hit)
    }

    fn cut_if(&mut self, path: &Bytes, was: &OutStat) -> Result<Hit, Failed> {
        let answer = self.folder.cut_if(path, was);
        let hit = self.count_outside(answer)?;
        Ok(hit)
    }

    fn mark(&mut self, path: &Bytes, text: &Bytes) -> Result<Marking, Failed> {
        let answer = self.folder.mark(path, text);
        let marking = self.count_outside(answer)?;
        Ok(marking)
    }

    fn unmark(&mut self, path: &Bytes, text: &Bytes) -> Result<Hit, Failed> {
        let answer = self.folder.unmark(path, text);
        let hit = self.count_outside(answer)?;
        Ok(hit)
    }

    fn give(&mut self, own: &Name, folder: &Bytes, name: &Bytes) -> Result<Giving, Failed> {
        let answer = self.folder.give(own, folder, name);
        let giving = self.count_outside(answer)?;
        Ok(giving)
    }
}
