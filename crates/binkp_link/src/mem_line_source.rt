//! A source of lines in memory, which plays two scripts and keeps the lines that are handed back.
ghost use Rattle.std.specs.Prelude.{◌≡◌, ◌<◌, All, IfOk, None, OnErr, OnOk, Some, false, map, true, option_map, slice_get, vec_capacity, vec_len};
ghost use Rattle.ftn_addr.specs.Counts.{next_count};
ghost use Rattle.binkp_link.specs.Callers.{ActIsUnused, Plays, UnusedLine, bytes_of, dial_answer, next_answer};
ghost use Rattle.binkp_link.specs.LineSources.{IsDialled, IsNext, listening};
ghost use Rattle.binkp_link.specs.MemLineSources.{call_of, handed_of, line_handed, lines_state, new_lines};
ghost use Rattle.binkp_link.specs.MemLines.{mem_state};
ghost use Rattle.binkp_link.specs.declared.line_source.Dialled.TheVariants as D;
ghost use Rattle.binkp_link.specs.declared.line_source.NextLine.TheVariants as N;

use crate::callers::{Callers, Dials, NextAct};
use crate::mem_line::MemLine;
use crate::{Dialled, LineCounts, Lines, NextLine};
use ftn_addr::{Bytes, Failed, NoMemory};
use std::alloc::Global;

/// A line that was given: what was to come on it then, and the line once it is back.
#[derive(Debug, Drop)]
struct Place {
    coming: Bytes,
    handed: Option<MemLine>,
}

/// A dial.
#[derive(Debug, Drop)]
struct Call {
    host: Bytes,
    port: u16,
}

/// A source whose callers and dials are scripts. It tells its lines.
#[derive(Debug, Drop)]
pub struct MemLines {
    alloc: Global,
    callers: Callers,
    dials: Dials,
    places: Vec<Place>,
    ports: Vec<u16>,
    calls: Vec<Call>,
    counts: LineCounts,
    deaf: bool,
}

/// Room for one more place, and the place of this line, or of none.
fn make_place(
    alloc: Global,
    places: &mut Vec<Place>,
    line: Option<&MemLine>,
) -> Result<Place, NoMemory>
    ensures coming { IfOk result (λ place. place.coming.list ≡ bytes_of (option_map (λ line. line.now) line.entry)) }
    ensures handed { IfOk result (λ place. place.handed ≡ None) }
    ensures room { IfOk result (λ _. vec_len places.new < vec_capacity places.new) }
    ensures same { places.new.items ≡ places.old.items }
{
    places.reserve(1)?;
    let coming = match line {
        Some(line) => line.all_bytes(alloc)?,
        None => Bytes::new(alloc),
    };
    Ok(Place {
        coming,
        handed: None,
    })
}

/// Room for one more dial, and this one.
fn make_call(
    alloc: Global,
    calls: &mut Vec<Call>,
    host: &Bytes,
    port: u16,
) -> Result<Call, NoMemory>
    ensures call { IfOk result (λ call. call_of call ≡ record { host = host.now.list; port = port }) }
    ensures room { IfOk result (λ _. vec_len calls.new < vec_capacity calls.new) }
    ensures same { calls.new.items ≡ calls.old.items }
{
    calls.reserve(1)?;
    Ok(Call {
        host: host.copy(alloc)?,
        port,
    })
}

impl MemLines {
    /// A source that plays these scripts from their start: who calls, and the lines of dials, where None and no item are a
    /// dial that fails. No byte moved on these lines yet. This takes no memory.
    pub fn new(alloc: Global, next: Vec<NextAct>, dials: Vec<Option<MemLine>>) -> MemLines
        requires callers { All ActIsUnused next.items }
        requires dialled { All UnusedLine dials.items }
        ensures state { lines_state result ≡ new_lines }
        ensures next { result.callers ≡ next.items }
        ensures dials { result.dials ≡ dials.items }
    {
        MemLines {
            alloc,
            callers: Callers::new(next),
            dials: Dials::new(dials),
            places: Vec::new(alloc),
            ports: Vec::new(alloc),
            calls: Vec::new(alloc),
            counts: LineCounts {
                faults: 0,
                misses: 0,
                nothings: 0,
                stops: 0,
                given: 0,
            },
            deaf: false,
        }
    }

    /// From now on listening fails.
    pub fn deaf(&mut self)
        ensures { self.new ≡ record self.old { deaf = true } }
    {
        self.deaf = true;
    }

    /// The line that was handed back at a place.
    pub fn handed(&self, place: u32) -> Option<&MemLine>
        ensures { option_map (λ line. mem_state line.now) result ≡ line_handed (slice_get (map handed_of self.now.places.items) place) }
    {
        let given = self.places.get(place as usize)?;
        given.handed.as_ref()
    }

    // The next act is one that fails.
    fn fail_next(&mut self) -> NextLine<MemLine>
        ensures answer { result ≡ N.Failed }
        ensures counts { self.new ≡ record self.old { counts = record self.old.counts { faults = next_count self.old.counts.faults } } }
    {
        self.counts.faults = self.counts.faults.saturating_add(1);
        NextLine::Failed
    }
}

impl MemLines {
    // The dial is one that fails.
    fn miss(&mut self) -> Dialled<MemLine>
        ensures answer { result ≡ D.Failed }
        ensures counts { self.new ≡ record self.old { counts = record self.old.counts { misses = next_count self.old.counts.misses } } }
    {
        self.counts.misses = self.counts.misses.saturating_add(1);
        Dialled::Failed
    }
}

impl Lines for MemLines {
    type One = MemLine;

    ghost state = { lines_state };

    fn counts(&self) -> LineCounts {
        self.counts
    }

    /// It fails once [`MemLines::deaf`] was called.
    fn listen(&mut self, port: u16) -> Result<(), Failed>
        ensures ok { OnOk result (lines_state self.new ≡ listening port (lines_state self.old)) }
        ensures err { OnErr result (lines_state self.new ≡ record (lines_state self.old) { counts = record (lines_state self.old).counts { faults = next_count (lines_state self.old).counts.faults } }) }
        ensures deaf { OnOk result (self.old.deaf ≡ false) }
        ensures same { self.new.deaf ≡ self.old.deaf }
    {
        if !self.deaf {
            if let Ok(()) = self.ports.push(port) {
                return Ok(());
            }
        }
        self.counts.faults = self.counts.faults.saturating_add(1);
        Err(Failed)
    }

    fn next(&mut self) -> NextLine<MemLine>
        ensures meets { IsNext mem_state result (lines_state self.old) (lines_state self.new) }
        ensures plays { Plays N.Failed next_answer self.old.callers result self.new.callers }
        ensures dials { self.new.dials ≡ self.old.dials }
    {
        let place = match make_place(self.alloc, &mut self.places, self.callers.line()) {
            Ok(place) => place,
            Err(NoMemory) => return self.fail_next(),
        };
        match self.callers.take() {
            Some(NextAct::Line(line)) => {
                self.places.push_reserved(place);
                self.counts.given = self.counts.given.saturating_add(1);
                NextLine::Came(line)
            }
            Some(NextAct::Nothing) => {
                self.counts.nothings = self.counts.nothings.saturating_add(1);
                NextLine::Nothing
            }
            None | Some(NextAct::Stop) => {
                self.counts.stops = self.counts.stops.saturating_add(1);
                NextLine::Stop
            }
            Some(NextAct::Failed) => self.fail_next(),
        }
    }

    fn dial(&mut self, host: &Bytes, port: u16) -> Dialled<MemLine>
        ensures meets { IsDialled mem_state result host.now.list port (lines_state self.old) (lines_state self.new) }
        ensures plays { Plays D.Failed dial_answer self.old.dials result self.new.dials }
        ensures callers { self.new.callers ≡ self.old.callers }
    {
        let Ok(call) = make_call(self.alloc, &mut self.calls, host, port) else {
            return self.miss();
        };
        let Ok(place) = make_place(self.alloc, &mut self.places, self.dials.line()) else {
            return self.miss();
        };
        self.calls.push_reserved(call);
        match self.dials.take() {
            Some(Some(line)) => {
                self.places.push_reserved(place);
                self.counts.given = self.counts.given.saturating_add(1);
                Dialled::Line(line)
            }
            None | Some(None) => self.miss(),
        }
    }

    fn back(&mut self, place: u32, line: MemLine) {
        let given = &mut self.places[place as usize];
        given.handed = Some(line);
    }
}
