//! Steps on a ledger.
ghost use Rattle.std.specs.Prelude.{◌≡◌, true, IfOk, IsOk, OnOk};
ghost use Rattle.disk_model.specs.Changes.{Every};
ghost use Rattle.disk_model.specs.Moments.{Now};
ghost use Rattle.ledger_file.specs.Ledger.{LedgerIs};
ghost use Rattle.ledger_file.specs.Text.{IsPayload};

use crate::saying::{no_such, say, say_bytes, say_count, say_text};
use anyhow::Result;
use disk_model::Disk;
use ftn_addr::Bytes;
use ledger_file::{AppendFault, Ledger};
use std::alloc::Global;
use test_script::bytes;

// The payload that a text stands for.
fn payload(alloc: Global, text: &str) -> Result<Bytes>
    ensures { IfOk result (λ payload. IsPayload payload.list) }
{
    let found = bytes(alloc, text)?;
    if found.is_empty() || found.len() > 1400 {
        return no_such("payload");
    }
    Ok(found)
}

// Each payload and its place.
fn told(alloc: Global, ledger: &Ledger, out: &mut String) -> Result<()> {
    say_text(out, "told")?;
    for i in 0..ledger.count() {
        say_text(out, " ")?;
        say_bytes(alloc, out, ledger.payload(i))?;
        say_count(out, " at ", ledger.place(i), "")?;
    }
    Ok(())
}

// One payload more.
fn append<D: Disk>(
    alloc: Global,
    disk: &mut D,
    ledger: &mut Ledger,
    text: &str,
) -> Result<Result<(), AppendFault>>
    requires { Every (Now D.moment D.images disk.old) (LedgerIs ledger.old.payloads) }
    ensures { IfOk result (λ answer. OnOk answer (Every (Now D.moment D.images disk.new) (LedgerIs ledger.new.payloads))) }
{
    let payload = payload(alloc, text)?;
    Ok(ledger.append(disk, payload.as_slice()))
}

// Two payloads more, in one change.
fn append_both<D: Disk>(
    alloc: Global,
    disk: &mut D,
    ledger: &mut Ledger,
    text: &str,
) -> Result<Result<(), AppendFault>>
    requires { Every (Now D.moment D.images disk.old) (LedgerIs ledger.old.payloads) }
    ensures { IfOk result (λ answer. OnOk answer (Every (Now D.moment D.images disk.new) (LedgerIs ledger.new.payloads))) }
{
    let (first, second) = text.split_once(",").unwrap_or((text, text));
    let both = [payload(alloc, first)?, payload(alloc, second)?];
    Ok(ledger.append_all(disk, &both))
}

// So many places are reserved.
fn reserve(ledger: &mut Ledger, text: &str) -> Result<Result<(), AppendFault>>
    ensures { ledger.new.payloads ≡ ledger.old.payloads }
{
    let count = text.parse::<u32>()?;
    Ok(ledger.reserve(count))
}

// So many places are reserved no longer, where so many are.
fn release(ledger: &mut Ledger, text: &str) -> Result<Result<(), AppendFault>>
    ensures { ledger.new.payloads ≡ ledger.old.payloads }
{
    let count = text.parse::<u32>()?;
    if count > ledger.reserved() {
        return Ok(Err(AppendFault::Full));
    }
    ledger.release(count);
    Ok(Ok(()))
}

// One step: its answer.
fn step<D: Disk>(
    alloc: Global,
    disk: &mut D,
    ledger: &mut Ledger,
    word: &str,
) -> Result<Result<(), AppendFault>>
    requires { Every (Now D.moment D.images disk.old) (LedgerIs ledger.old.payloads) }
    ensures { IfOk result (λ answer. OnOk answer (Every (Now D.moment D.images disk.new) (LedgerIs ledger.new.payloads))) }
{
    let (step, text) = word.split_once(":").unwrap_or((word, ""));
    match step {
        "append" => append(alloc, disk, ledger, text),
        "both" => append_both(alloc, disk, ledger, text),
        "reserve" => reserve(ledger, text),
        "release" => release(ledger, text),
        _ => no_such("step"),
    }
}

// An answer: whether another step may follow.
fn say_answer(out: &mut String, answer: Result<(), AppendFault>) -> Result<bool>
    ensures { IfOk result (λ more. more ≡ true → IsOk answer) }
{
    let more = answer.is_ok();
    say(out, answer)?;
    Ok(more)
}

// One step, whose answer is put behind the text: whether another may follow.
fn play<D: Disk>(
    alloc: Global,
    disk: &mut D,
    ledger: &mut Ledger,
    word: &str,
    out: &mut String,
) -> Result<bool>
    requires { Every (Now D.moment D.images disk.old) (LedgerIs ledger.old.payloads) }
    ensures { IfOk result (λ more. more ≡ true → Every (Now D.moment D.images disk.new) (LedgerIs ledger.new.payloads)) }
{
    if word == "told" {
        told(alloc, ledger, out)?;
        return Ok(true);
    }
    let answer = step(alloc, disk, ledger, word)?;
    say_answer(out, answer)
}

// Makes steps on a ledger until one is refused: what each answered.
fn play_all<D: Disk>(
    alloc: Global,
    disk: &mut D,
    ledger: &mut Ledger,
    steps: &[&str],
    out: &mut String,
) -> Result<()>
    requires { Every (Now D.moment D.images disk.old) (LedgerIs ledger.old.payloads) }
{
    for word in steps {
        say_text(out, ", ")?;
        if !play(alloc, disk, ledger, word, out)? {
            break;
        }
    }
    say_count(out, ", ", u64::from(ledger.count()), " payloads")
}

/// Opens the ledger, and makes steps on it until one is refused: what each answered, or why it isn't opened.
pub fn ledger_steps<D: Disk>(
    alloc: Global,
    disk: &mut D,
    steps: &[&str],
    out: &mut String,
) -> Result<()> {
    match Ledger::open(alloc, disk) {
        Ok(mut ledger) => {
            say_text(out, "opened")?;
            play_all(alloc, disk, &mut ledger, steps, out)
        }
        Err(fault) => say(out, fault),
    }
}
