//! How many files and lines of a take-in became what.
ghost use Rattle.std.specs.Prelude.{◌≡◌, ◌∷◌, []};
ghost use Rattle.std.specs.List.{flat_map};
ghost use Rattle.outbound_round.specs.Counts.{counted, counts_of, counts_with, fates_of};

use outbound_lines::TookCounts;
use outbound_model::Fate;
use outbound_take::{Taken, TookFile};

// One more.
fn with_fate(fate: Fate, counts: TookCounts) -> TookCounts
    ensures { result ≡ counts_with (fate ∷ []) counts }
{
    match fate {
        Fate::Queued(_) => TookCounts {
            queued: counts.queued.saturating_add(1),
            ..counts
        },
        Fate::Again(_) => TookCounts {
            again: counts.again.saturating_add(1),
            ..counts
        },
        Fate::Missing => TookCounts {
            missing: counts.missing.saturating_add(1),
            ..counts
        },
        Fate::Over => TookCounts {
            over: counts.over.saturating_add(1),
            ..counts
        },
        Fate::Passed => TookCounts {
            passed: counts.passed.saturating_add(1),
            ..counts
        },
    }
}

fn with_fates(fates: &[Fate], counts: TookCounts) -> TookCounts
    ensures { result ≡ counts_with fates.now counts }
{
    let mut more = counts;
    for fate in fates {
        more = with_fate(*fate, more);
    }
    more
}

fn with_files(files: &[TookFile], counts: TookCounts) -> TookCounts
    ensures { result ≡ counts_with (flat_map fates_of files.now) counts }
{
    let mut more = counts;
    for file in files {
        more = with_fates(file.fates.as_slice(), more);
    }
    more
}

// A number of takes, which is at most 4,294,967,295.
fn capped(count: usize) -> u32
    ensures { result ≡ counted count }
{
    match u32::try_from(count) {
        Ok(count) => count,
        Err(_) => u32::MAX,
    }
}

/// How many files were queued, and what became of the others. The takes that wait are counted as over.
pub(crate) fn counts_of(taken: &Taken) -> TookCounts
    ensures { result ≡ counts_of taken.now }
{
    let none = TookCounts {
        queued: 0,
        again: 0,
        missing: 0,
        over: capped(taken.over.len()),
        passed: 0,
    };
    with_files(taken.files.as_slice(), none)
}
