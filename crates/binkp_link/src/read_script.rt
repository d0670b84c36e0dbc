//! A script of reads, as it is played.
ghost use Rattle.std.specs.Prelude.{◌≡◌, ◌<◌, ◌≤◌, ◌++◌, [], length, map, take, drop, IfOk, IsSome, min};
ghost use Rattle.binkp_link.specs.Lines.{MayRead, came};
ghost use Rattle.binkp_link.specs.Scripts.{AllGiveSome, PlaysRead, act_of, first_act, first_bytes, heeded, past_not_yet, place_on, played, read_turn, script_bytes, turn_at};
ghost use Rattle.binkp_link.specs.Fronts.{front_act};

use crate::ReadAnswer;
use crate::acts::ReadAct;
use ftn_addr::{Bytes, NoMemory};
use std::alloc::Global;
use std::marker::Model;

/// A script of reads: its acts, how many of them are over, and how many bytes the next one gave.
#[derive(Debug, Drop)]
pub struct ReadScript {
    acts: Vec<ReadAct>,
    over: usize,
    place: usize,
}

impl Model for ReadScript {
    ghost use Rattle.std.specs.Prelude.{◌++◌, map, take, drop};
    ghost use Rattle.binkp_link.specs.Scripts.{Script, AllGiveSome, act_of, script_bytes, first_bytes, without_front};

    ghost Value = { Script };

    ghost view = { λ s. record { taken = script_bytes (take s.over (map act_of s.acts.items)) ++ take s.place (first_bytes (drop s.over (map act_of s.acts.items))); left = without_front s.place (drop s.over (map act_of s.acts.items)) } };

    ghost invariant = { λ s. AllGiveSome (without_front s.place (drop s.over (map act_of s.acts.items))) };
}

/// The next act of a script, with the bytes that it has left.
#[derive(Clone, Copy)]
pub enum Front<'a> {
    End,
    Bytes(&'a [u8]),
    NotYet,
    Quiet,
    Failed,
}

// The place in an act after `n` more of its bytes, where it has more.
fn place_after(acts: &[ReadAct], over: usize, place: usize, n: usize) -> Option<usize>
    ensures { result ≡ place_on (length (first_bytes (drop over (map act_of acts.now)))) place n }
{
    let len = acts.get(over)?.bytes().len();
    if n < len.saturating_sub(place) {
        Some(place + n)
    } else {
        None
    }
}

impl ReadScript {
    /// A script of which nothing was played.
    pub fn new(acts: Vec<ReadAct>) -> ReadScript
        requires { AllGiveSome (map act_of acts.items) }
        ensures taken { result.taken ≡ [] }
        ensures left { result.left ≡ map act_of acts.items }
    {
        ReadScript {
            acts,
            over: 0,
            place: 0,
        }
    }

    /// The act that comes next.
    fn front(&self) -> Front<'_>
        ensures act { front_act result ≡ first_act self.now.left }
        ensures some { AllGiveSome self.now.left }
    {
        match self.acts.get(self.over) {
            None => Front::End,
            Some(ReadAct::Bytes(bytes)) => {
                let (_, left) = bytes.as_slice().split_at(self.place);
                Front::Bytes(left)
            }
            Some(ReadAct::NotYet) => Front::NotYet,
            Some(ReadAct::Quiet) => Front::Quiet,
            Some(ReadAct::Failed) => Front::Failed,
        }
    }

    /// The next act gave `n` more bytes. Once it gave all it is over.
    fn pass(&mut self, n: usize)
        requires some { IsSome (first_act self.old.left) }
        requires within { n ≤ length (first_bytes self.old.left) }
        ensures left { self.new.left ≡ played n self.old.left }
        ensures taken { self.new.taken ≡ self.old.taken ++ take n (first_bytes self.old.left) }
    {
        match place_after(self.acts.as_slice(), self.over, self.place, n) {
            Some(place) => self.place = place,
            None => {
                self.over += 1;
                self.place = 0;
            }
        }
    }

    /// Passes over each NotYet that comes next.
    fn pass_not_yet(&mut self)
        ensures left { self.new.left ≡ past_not_yet self.old.left }
        ensures taken { self.new.taken ≡ self.old.taken }
    {
        while let Front::NotYet = self.front() {
            self.pass(0);
        }
    }

    /// Plays the next act.
    fn play_next(&mut self, out: &mut [u8], wait: bool) -> ReadAnswer
        requires { 0 < length out.old }
        ensures turn { PlaysRead (turn_at wait (length out.old) self.old.left) result (came result out.new) self.new.left }
        ensures some { AllGiveSome self.old.left }
        ensures taken { self.new.taken ≡ self.old.taken ++ came result out.new }
    {
        match self.front() {
            Front::End => ReadAnswer::End,
            Front::Bytes(bytes) => {
                let n = bytes.len().min(out.len());
                out[..n].copy_from_slice(&bytes[..n]);
                self.pass(n);
                ReadAnswer::Came(n)
            }
            Front::Quiet if !wait => ReadAnswer::NotYet,
            Front::NotYet => {
                self.pass(0);
                ReadAnswer::NotYet
            }
            Front::Quiet => {
                self.pass(0);
                ReadAnswer::Quiet
            }
            Front::Failed => {
                self.pass(0);
                ReadAnswer::Failed
            }
        }
    }

    /// One read. It takes no memory.
    pub fn play(&mut self, out: &mut [u8], wait: bool) -> ReadAnswer
        requires { 0 < length out.old }
        ensures turn { PlaysRead (read_turn wait (length out.old) self.old.left) result (came result out.new) self.new.left }
        ensures some { AllGiveSome (heeded wait self.old.left) }
        ensures taken { self.new.taken ≡ self.old.taken ++ came result out.new }
    {
        if wait {
            self.pass_not_yet();
        }
        self.play_next(out, wait)
    }

    /// The bytes of all its acts: those that it gave and those that it has left.
    pub fn all_bytes(&self, alloc: Global) -> Result<Bytes, NoMemory>
        ensures { IfOk result (λ all. self.now.taken ++ script_bytes self.now.left ≡ all.list) }
    {
        let mut all = Bytes::new(alloc);
        for act in &self.acts {
            all.push_slice(act.bytes())?;
        }
        Ok(all)
    }
}
