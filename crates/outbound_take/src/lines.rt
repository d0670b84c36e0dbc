//! What is planned for the lines of a flow file before they are queued.
ghost use Rattle.outbound_take.specs.Ruled.{Ruled};
ghost use Rattle.std.specs.Prelude.{◌≡◌, ◌++◌, ◌∷◌, [], ◌≤◌, List, IfOk, OnOk, None, Some, map};
ghost use Rattle.std.specs.Str.{IsUtf8};
ghost use Rattle.ftn_addr.specs.Address.{address};
ghost use Rattle.ftn_addr.specs.Limits.{IsAddress};
ghost use Rattle.flow_file.specs.Views.{item};
ghost use Rattle.node_model.specs.StoreWords.{entry_of, slot_of};
ghost use Rattle.outbound_model.specs.Fates.{CanQueue, names_mark, unless_mark};
ghost use Rattle.outbound_model.specs.Outbound.{Outbound};
ghost use Rattle.outbound_take.specs.declared.words.Line.TheVariants as L;
ghost use Rattle.outbound_take.specs.Calls.{AreNew, IsLike, bodies_of};
ghost use Rattle.outbound_take.specs.Ours.{Ours};
ghost use Rattle.outbound_take.specs.Plans.{Answers, PlanIs, PlanStages, Planned, fates_in, file_for};
ghost use Rattle.outbound_take.specs.Stand.{Breaks, IsCalm, Settles, TakeStand, told};

use crate::Outgoing;
use crate::words::Line;
use bso_outbound::last_part;
use flow_file::FlowLine;
use ftn_addr::{Action, Addr, Bytes, FileKey, MAX_NAME, NoMemory, is_same_word};
use node_model::{Flavour, NewFile, OutStat, Slot, Staged, StoreFault};
use outbound_model::Fate;
use std::alloc::Global;

/// What is planned for a line.
#[derive(Debug, Drop)]
pub(crate) enum Plan {
    /// Its fate is known.
    Is(Fate),
    /// A copy of its file is staged, and is to be queued.
    File(NewFile),
}

/// What is planned for the lines of a take, and the files that are to be queued, in order.
#[derive(Debug, Drop)]
pub(crate) struct Plans {
    pub(crate) lines: Vec<Line>,
    pub(crate) files: Vec<NewFile>,
}

impl Plans {
    /// The plan of one file that is to be queued.
    pub(crate) fn of_file(alloc: Global, file: NewFile) -> Result<Plans, NoMemory>
        ensures lines { IfOk result (λ plans. plans.lines.items ≡ L.File ∷ []) }
        ensures files { IfOk result (λ plans. plans.files.items ≡ file ∷ []) }
    {
        let mut lines = Vec::new(alloc);
        lines.push(Line::File)?;
        let mut files = Vec::new(alloc);
        files.push(file)?;
        Ok(Plans { lines, files })
    }

    // One line more, of which the fate is known.
    fn add_fate(&mut self, fate: Fate) -> Result<(), NoMemory>
        ensures lines { OnOk result (self.new.lines.items ≡ self.old.lines.items ++ L.Is fate ∷ []) }
        ensures files { self.new.files.items ≡ self.old.files.items }
    {
        self.lines.push(Line::Is(fate))?;
        Ok(())
    }

    // One line more, whose file is to be queued.
    fn add_file(&mut self, file: NewFile) -> Result<(), NoMemory>
        ensures lines { OnOk result (self.new.lines.items ≡ self.old.lines.items ++ L.File ∷ []) }
        ensures files { OnOk result (self.new.files.items ≡ self.old.files.items ++ file ∷ []) }
    {
        self.lines.push(Line::File)?;
        self.files.push(file)?;
        Ok(())
    }
}

/// The most bytes of the path of a source.
const MAX_PATH: usize = 1_024;

// Whether the path is that of a busy or a call mark (FTS-5005).
fn names_mark(path: &[u8]) -> bool
    ensures { result ≡ names_mark path.now }
{
    let end = &path[path.len().saturating_sub(4)..];
    is_same_word(end, b".bsy") || is_same_word(end, b".csy")
}

// The line, or a passed one where its path is that of a mark.
fn unless_mark(line: FlowLine) -> FlowLine
    ensures { item result ≡ unless_mark (item line) }
{
    match line {
        FlowLine::Passed => FlowLine::Passed,
        FlowLine::Send(action, path) => {
            if names_mark(path.as_slice()) {
                FlowLine::Passed
            } else {
                FlowLine::Send(action, path)
            }
        }
    }
}

fn is_text(path: &[u8]) -> bool
    ensures { Answers (IsUtf8 path.now) result }
{
    match str::from_utf8(path) {
        Ok(_) => true,
        Err(_) => false,
    }
}

// Whether a file of that path can be queued.
fn can_queue(path: &[u8]) -> bool
    ensures { Answers (CanQueue path.now) result }
{
    let name = last_part(path);
    if name.is_empty() || name.len() > MAX_NAME {
        return false;
    }
    if path.len() > MAX_PATH {
        return false;
    }
    is_text(path)
}

// The file that is to be queued for a staged copy.
fn file_of(
    alloc: Global,
    number: u32,
    stat: OutStat,
    dest: &Addr,
    action: Action,
    path: Bytes,
    flavour: Flavour,
) -> Result<NewFile, NoMemory>
    ensures { IfOk result (λ f. entry_of f ≡ file_for number (address dest.now) path.list stat action flavour) }
{
    let name = Bytes::from_slice(alloc, last_part(path.as_slice()))?;
    let dest = dest.copy(alloc)?;
    let key = FileKey {
        name,
        size: stat.size,
        time: stat.time,
    };
    Ok(NewFile {
        number,
        dest,
        key,
        source: path,
        action,
        flavour,
    })
}

// Stages the file of a line, where it can be queued.
#[tactic(auto, using(crate::proofs::RuledLemmas::ruled_one))]
fn plan_line<S: Outgoing>(
    store: &mut S,
    alloc: Global,
    dest: &Addr,
    now: u64,
    flavour: Flavour,
    line: FlowLine,
) -> Result<Plan, StoreFault>
    requires whole { (S.stand store.old).memory.broken ≡ None }
    requires calm { IsCalm (S.stand store.old) }
    requires address { IsAddress (address dest.now) }
    ensures works { Ours (address dest.now) now (λ plan. []) result (S.stand store.old) (S.stand store.new) }
    ensures told { Settles result → told (S.stand store.new) ≡ told (S.stand store.old) }
    ensures memory { Settles result → IsLike (S.stand store.old).memory (S.stand store.new).memory }
    ensures stages { IfOk result (λ plan. PlanStages plan (S.stand store.old).memory (S.stand store.new).memory) }
    ensures planned { IfOk result (λ plan. (s : Outbound) → told (S.stand store.old) ≡ Some s → PlanIs (address dest.now) flavour s.outside (item line) plan (S.stand store.old).content (S.stand store.new).content) }
    ensures ruled { Ruled S.rule store.old store.new }
    ensures breaks { Breaks result (S.stand store.new) }
{
    let (action, path) = match line {
        FlowLine::Passed => return Ok(Plan::Is(Fate::Passed)),
        FlowLine::Send(action, path) => (action, path),
    };
    if !can_queue(path.as_slice()) {
        return Ok(Plan::Is(Fate::Missing));
    }
    match store.stage_copy(&path) {
        Ok(Staged::Absent) => Ok(Plan::Is(Fate::Missing)),
        Ok(Staged::Over) => Ok(Plan::Is(Fate::Over)),
        Ok(Staged::Copied(number, stat)) => {
            match file_of(alloc, number, stat, dest, action, path, flavour) {
                Ok(file) => Ok(Plan::File(file)),
                Err(_) => Err(StoreFault::NoMemory),
            }
        }
        Err(fault) => Err(fault),
    }
}

/// Stages the files of the lines, in order.
#[tactic(auto, using(crate::proofs::RuledLemmas::ruled_on))]
pub(crate) fn plan_lines<S: Outgoing>(
    store: &mut S,
    alloc: Global,
    dest: &Addr,
    now: u64,
    flavour: Flavour,
    lines: Vec<FlowLine>,
) -> Result<Plans, StoreFault>
    requires whole { (S.stand store.old).memory.broken ≡ None }
    requires calm { IsCalm (S.stand store.old) }
    requires address { IsAddress (address dest.now) }
    ensures works { Ours (address dest.now) now (λ plans. []) result (S.stand store.old) (S.stand store.new) }
    ensures told { Settles result → told (S.stand store.new) ≡ told (S.stand store.old) }
    ensures memory { Settles result → IsLike (S.stand store.old).memory (S.stand store.new).memory }
    ensures staged { IfOk result (λ plans. AreNew (map entry_of plans.files.items) (S.stand store.new).memory) }
    ensures planned { IfOk result (λ plans. (s : Outbound) → told (S.stand store.old) ≡ Some s → Planned (address dest.now) flavour s.outside (bodies_of (S.stand store.new).content) (map unless_mark (map item lines.items)) plans.lines.items (map entry_of plans.files.items)) }
    ensures ruled { Ruled S.rule store.old store.new }
    ensures breaks { Breaks result (S.stand store.new) }
{
    let mut plans = Plans {
        lines: Vec::new(alloc),
        files: Vec::new(alloc),
    };
    for line in lines {
        match plan_line(store, alloc, dest, now, flavour, unless_mark(line)) {
            Ok(Plan::Is(fate)) => {
                if let Err(_) = plans.add_fate(fate) {
                    return Err(StoreFault::NoMemory);
                }
            }
            Ok(Plan::File(file)) => {
                if let Err(_) = plans.add_file(file) {
                    return Err(StoreFault::NoMemory);
                }
            }
            Err(fault) => return Err(fault),
        }
    }
    Ok(plans)
}

/// The fates of lines once their files were queued.
pub(crate) fn fates_of(alloc: Global, lines: &[Line], slots: &[Slot]) -> Result<Vec<Fate>, NoMemory>
    ensures { IfOk result (λ fates. fates.items ≡ fates_in lines.now (map slot_of slots.now)) }
{
    let mut fates = Vec::new(alloc);
    let mut rest = slots;
    for line in lines {
        match (line, rest) {
            (Line::Is(fate), _) => fates.push(*fate)?,
            (Line::File, [Slot::New(number), after @ ..]) => {
                fates.push(Fate::Queued(*number))?;
                rest = after;
            }
            (Line::File, [Slot::Again(number), after @ ..]) => {
                fates.push(Fate::Again(*number))?;
                rest = after;
            }
            (Line::File, []) => return Ok(fates),
        }
    }
    Ok(fates)
}
