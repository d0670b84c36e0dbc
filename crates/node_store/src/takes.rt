//! The takes that stand in the own folder: outside files that were taken there, and aren't removed yet.
ghost use Rattle.std.specs.Prelude.{◌≡◌, ◌<◌, true, map, OnErr, OnOk};
ghost use Rattle.ftn_addr.specs.declared.limits.TheConstants.{MAX_NUMBER};
ghost use Rattle.node_store.specs.Takes.{no_takes, noted, with_drawn, with_found, with_moved, with_noted, without_take};
ghost use Rattle.disk_model.specs.declared.answers.Moved.TheVariants.{Done};

use disk_model::Name;
use ftn_addr::NoMemory;
use std::alloc::Global;
use std::marker::Model;

/// A take that stands in the own folder.
#[derive(Clone, Copy, Debug)]
pub struct TakeName {
    /// Its number.
    pub take: u32,
    /// The name of its own file.
    pub own: Name,
    /// Whether its number is recorded: then what it brought is queued.
    pub recorded: bool,
}

impl TakeName {
    // Its number was recorded, where it is that one.
    fn note(&mut self, take: u32)
        ensures { self.new ≡ noted take self.old }
    {
        if take == self.take {
            self.recorded = true;
        }
    }
}

/// The takes that stand; the greatest number of one that stands or is recorded; and whether the next number was drawn, which is no
/// greater than numbers may be, and for which there is room.
#[derive(Drop)]
pub(crate) struct StandingTakes {
    left: Vec<TakeName>,
    last: u32,
    drawn: bool,
}

impl Model for StandingTakes {
    ghost use Rattle.std.specs.Prelude.{◌≡◌, ◌<◌, true, vec_capacity, vec_len};
    ghost use Rattle.ftn_addr.specs.declared.limits.TheConstants.{MAX_NUMBER};
    ghost use Rattle.node_store.specs.Takes.{Takes};

    ghost Value = { Takes };

    ghost view = { λ t. record { left = t.left.items; last = t.last; drawn = t.drawn } };

    ghost invariant = { λ t. t.drawn ≡ true → (vec_len t.left < vec_capacity t.left) × (t.last < MAX_NUMBER) };
}

impl StandingTakes {
    /// No takes, where that number is the greatest recorded.
    pub(crate) fn behind(alloc: Global, last: u32) -> StandingTakes
        ensures { result ≡ record no_takes { last = last } }
    {
        StandingTakes {
            left: Vec::new(alloc),
            last,
            drawn: false,
        }
    }

    /// Those that stand.
    pub(crate) fn left(&self) -> &[TakeName]
        ensures { result.now ≡ self.now.left }
    {
        self.left.as_slice()
    }

    /// The greatest number.
    pub(crate) fn last(&self) -> u32
        ensures { result ≡ self.now.last }
    {
        self.last
    }

    /// One more stands, whose number isn't recorded.
    pub(crate) fn add(&mut self, take: u32, own: Name) -> Result<(), NoMemory>
        ensures { OnOk result (self.new ≡ with_found take own self.old) }
    {
        self.left.push(TakeName {
            take,
            own,
            recorded: false,
        })?;
        self.last = self.last.max(take);
        self.drawn = false;
        Ok(())
    }

    /// Makes room for the take of the next number.
    pub(crate) fn draw(&mut self) -> Result<(), NoMemory>
        requires { self.old.last < MAX_NUMBER }
        ensures drawn { OnOk result (self.new ≡ with_drawn self.old) }
        ensures same { OnErr result (self.new ≡ self.old) }
    {
        self.left.reserve(1)?;
        self.drawn = true;
        Ok(())
    }

    /// A file was taken under the number that was drawn.
    pub(crate) fn moved(&mut self, own: &Name)
        requires { self.old.drawn ≡ true }
        ensures { self.new ≡ with_moved own.now Done self.old }
    {
        self.last += 1;
        self.drawn = false;
        match self.left.push(TakeName {
            take: self.last,
            own: *own,
            recorded: false,
        }) {
            Ok(()) => (),
            Err(_) => unreachable!(),
        }
    }

    /// The take of that name stands no more.
    pub(crate) fn removed(&mut self, own: &Name)
        ensures { self.new ≡ without_take own.now self.old }
    {
        self.left.retain(|take| take.own != *own);
    }

    /// A take was recorded, where there is one.
    pub(crate) fn note(&mut self, take: Option<u32>)
        ensures { self.new ≡ with_noted take self.old }
    {
        if let Some(take) = take {
            self.last = self.last.max(take);
            self.drawn = false;
            note_each(take, self.left.as_mut_slice());
        }
    }
}

fn note_each(take: u32, left: &mut [TakeName])
    ensures { left.new ≡ map (noted take) left.old }
{
    for standing in left.iter_mut() {
        standing.note(take);
    }
}
