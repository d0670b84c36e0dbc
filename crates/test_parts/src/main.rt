//! What a store stands on, by script: a disk in memory, and over it the ledger's file, the marks of an outbound and the nodelist;
//! the ledger's records and what they fold to; indexes. Each line of standard input is a call, and is printed with what came back.
//!
//! ```text
//! # A sentence                  printed as it stands; the disk is a new one then, as behind `new`, and nothing is folded
//! fail 3                        the third call of the disk is to fail
//! counts                        its calls, faults and syncs, and how many numbers pick a stop behind the last call
//! picks 4                       how many pick one behind the fourth call
//! stop 1 4                      what a stop behind the fourth call leaves by the number 1; without the 4, behind all calls
//!
//! put a abcd xy                 a file is made, cut, written and synced, and written over at its front: five calls
//! move a b                      one is made, cut, written and synced, renamed, made anew and removed: seven calls
//! store a abc 3*x 3*#, \x00     a file with these bytes, durable: `3*x` is `xxx`, and `3*#,` is `1,2,3,`
//! create a                      `list` and `file a`: the names of the own files, and the bytes of one
//! behind a 2 cde                a write at a place that the file has
//! twice a 4 ef 1 Y              two writes and a sync
//!
//! out in/x 7 abc                another program's file of that path, `""` an empty one, of that time of change
//! look in/x                     its size and time
//! copy in/x a 3                 a copy of at most three bytes; `take in/x a`: it becomes an own file
//! remove in/x 3 7               removed, or `cut` to nothing, where it has that size and time
//! mark in/y.bsy 1               a file that is made where none stands; `unmark`: removed where it holds just that
//! give in x a                   the own file of that name is made, and given as x into the folder
//! names in                      the names in a folder
//!
//! ledger append:one told        steps on the ledger, which is opened for them: `append:one`, `both:two,three` in one change,
//!                               `reserve:2` and `release:1` of places, `told` with each payload and its place
//!
//! busy mark                     the busy mark of 2:5020/1042 and its note; `unmark`, and `clear` as the note has it
//! busy state in/x               what the note holds, and the file of that path
//! busy text FidoNet             the text of a mark that 2:5047/13 of that domain makes
//!
//! nodes Zone,1\x0a ,1           how many nodes a list has and the first ten, or its bad line; `index`: its index's bytes
//! opens nodeidx1\x00            how many nodes an index has, or where it is none
//! compile /ftn/nodelist.333     the list at that path becomes the own folder's; `read`: how many nodes its index has
//! route 5020 7                  how 2:5020/7 is reached by it; `found 1100`: which nodes of 2:5020 below that number it has
//! pair /ftn/nodelist.333        whether the list has the bytes of that file, and the index is that of these bytes
//!
//! write file 7 a.txt            the bytes of a record of the peer 2:5047/13: `done 7 1`, `received 1 a.txt 1`, `refused a.txt 1`,
//!                               `mark 1 a.txt 3`, `taken 1`, `acted 7`, `answered 1`
//! spell \x06\x00                the bytes of a copy of the record that these bytes are
//! fold file 7 a.txt 2 0         a record is folded; a file may have an action and a flavour. `folded`: all that is folded
//! longer 1 a.txt 4              a mark is made longer; `hold mark 1 a.txt 3`: it is held, reserved for, and folded
//! waits 0 3 7                   the turn of the next file that waits for point 0 of the peer behind that turn, or the first
//! acts 0                        the first file whose source waits for its action; `queued a.txt`: whether it was ever queued
//! batch 2 1 7:b.txt             files that are queued together with take 2 and an answer to receipt 1, or `-`
//! many 100000                   so many files are queued, and then settled
//!
//! files note:13:5 find:13:5     steps on a new index of files by node and size; of `numbers` by their places (`start:7:4`); of
//!                               `turns` by rank and number (`next:13:0:9`); on a `set` of numbers (`next:3`). `remove` takes out
//! ```
//!
//! A `\x` and two digits are a byte, in a text and in what is printed. There a `\` is `\x5c`.
#![tactic(auto)]

mod calls;
mod folds;
mod indexes;
mod ledger;
mod marks;
mod nodelists;
mod outside;
mod own;
mod records;
mod saying;

use anyhow::Result;
use calls::call;
use ledger_rec::Folded;
use mem_disk::MemDisk;
use std::io;
use test_script::words_of;

// Plays one line, over what the lines before it left.
fn play(rt: &HostRuntime, line: &str, disk: &mut MemDisk, folded: &mut Folded) -> Result<()> {
    let words = words_of(rt.alloc(), line)?;
    let mut out = String::new(rt.alloc());
    call(rt.alloc(), disk, folded, words.as_slice(), &mut out)?;
    println!(rt; "{line}: {out}")?;
    Ok(())
}

// Begins what stands below a sentence.
fn begin(rt: &HostRuntime, line: &str, disk: &mut MemDisk, folded: &mut Folded) -> Result<()> {
    *disk = MemDisk::new(rt.alloc());
    *folded = Folded::new(rt.alloc());
    println!(rt; "{line}")?;
    Ok(())
}

// Plays the lines.
fn play_all(rt: &HostRuntime, text: &str, disk: &mut MemDisk, folded: &mut Folded) -> Result<()> {
    for line in text.lines() {
        if line.starts_with("#") {
            begin(rt, line, disk, folded)?;
        } else if !line.is_empty() {
            play(rt, line, disk, folded)?;
        }
    }
    Ok(())
}

fn main(rt: HostRuntime) -> Result<()> {
    let text = io::read_to_string(rt.alloc(), rt.reader())?;
    let mut disk = MemDisk::new(rt.alloc());
    let mut folded = Folded::new(rt.alloc());
    play_all(&rt, text.as_str(), &mut disk, &mut folded)
}
