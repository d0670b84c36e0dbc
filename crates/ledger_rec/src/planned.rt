//! Files that are to be queued together, before they are.
ghost use Rattle.std.specs.Prelude.{◌≡◌, ◌||◌, ◌++◌, ◌∷◌, [], true, List, IfSome, nat_lt};
ghost use Rattle.ledger_rec.specs.Batch.{all_queued, may_follow};
ghost use Rattle.ledger_rec.specs.Fold.{State};
ghost use Rattle.ledger_rec.specs.Indexed.{Agrees, are_below};
ghost use Rattle.ledger_rec.specs.Lists.{state_of};
ghost use Rattle.ledger_rec.specs.Planned.{Plans};
ghost use Rattle.ledger_rec.specs.Record.{NewFileText, new_file};

use crate::NewFileRec;
use crate::lists::Lists;
use crate::rules::is_queued;
use file_index::FileIndex;
use std::alloc::Global;

/// What is told of the files so far, beside the lists.
#[derive(Debug, Drop)]
pub(crate) struct Planned {
    files: FileIndex,
    /// The greatest number of the queue and of the files.
    greatest: u32,
    /// Whether there is neither a queue nor a file.
    none: bool,
}

impl Planned {
    /// No file, which takes no memory.
    pub(crate) fn new(alloc: Global, lists: &Lists) -> Planned
        requires { Agrees lists.now.index (state_of lists.now) }
        ensures { Plans result [] (state_of lists.now) }
    {
        Planned {
            files: FileIndex::new(alloc),
            greatest: lists.index.greatest,
            none: lists.queue.is_empty(),
        }
    }

    // Whether the number is above all of the queue and of the files.
    fn is_above(&self, number: u32) -> bool
        ensures { result ≡ (self.now.none || nat_lt self.now.greatest number) }
    {
        self.none || self.greatest < number
    }

    /// Whether one file more may be queued behind those; None where no memory was left to tell.
    pub(crate) fn takes(&self, file: &NewFileRec, lists: &Lists) -> Option<bool>
        requires { Agrees lists.now.index (state_of lists.now) }
        ensures { (files : List NewFileText) → Plans self.now files (state_of lists.now) → IfSome result (λ may. may ≡ may_follow (new_file file.now) (all_queued files (state_of lists.now))) }
    {
        match self.files.find(&file.dest, &file.key) {
            Some(planned) => Some(
                file.number > 0
                    && (self.is_above(file.number)
                        && !(is_queued(&file.dest, &file.key, lists) || planned)),
            ),
            None => None,
        }
    }

    /// Notes one file more. Where there is no memory for it, [`Planned::takes`] tells None from then on.
    pub(crate) fn note(&mut self, file: &NewFileRec)
        ensures { (files : List NewFileText) (s : State) → Plans self.old files s → are_below file.now.number (all_queued files s).queue ≡ true → Plans self.new (files ++ new_file file.now ∷ []) s }
    {
        self.files.note(&file.dest, &file.key);
        self.greatest = file.number;
        self.none = false;
    }
}
