//! The data of the file under way, a frame at a time.
ghost use Rattle.std.specs.Prelude.{◌≡◌, ◌<◌, ◌≤◌, ◌+◌, ◌-◌, ◌++◌, min, take, Some, true, IfOk, OnErr, length};
ghost use Rattle.node_model.specs.Calls.{Read_call};
ghost use Rattle.node_model.specs.Desks.{HasClaim, read_answer, size_in};
ghost use Rattle.node_model.specs.Images.{Kept};
ghost use Rattle.node_model.specs.Talk.{Data};
ghost use Rattle.session_send.specs.Senders.{sending_text, claim_of, offer_bytes, Steps};

use crate::saying::say_data;
use crate::sending::{SendStep, Sending};
use ftn_addr::{Bytes, NoMemory};
use node_model::{Desk, DeskFault};
use std::alloc::Global;

fn zeros(alloc: Global, count: usize) -> Result<Vec<u8>, NoMemory>
    ensures { IfOk result (λ bytes. length bytes.items ≡ count) }
{
    Ok(vec![in alloc; 0; count]?)
}

/// Reads data from a place on, as much as fits, and says it. The room for it is there.
fn pass_on<K: Desk>(
    place: u64,
    section: &mut [u8],
    desk: &mut K,
    out: &mut Bytes,
) -> Result<usize, DeskFault>
    requires fits { length section.old ≤ 32767 }
    requires room { length section.old + 2 ≤ out.old.spare }
    requires ready { K.ready desk.old }
    requires in_session { (K.part desk.old).open_now ≡ true }
    requires claimed { HasClaim (K.part desk.old) }
    ensures made { Kept K.alone (K.stand desk.old) (Read_call place (length section.old)) (read_answer section.new result) (K.stand desk.new) }
    ensures count { IfOk result (λ count. count ≡ min (length section.old) (size_in (K.part desk.old).claim - place)) }
    ensures said { IfOk result (λ count. out.new.list ≡ out.old.list ++ offer_bytes (Data (take count section.new))) }
    ensures err { OnErr result (out.new.list ≡ out.old.list) }
    ensures part { K.part desk.new ≡ K.part desk.old }
    ensures ready { K.ready desk.new }
{
    match desk.read(place, section) {
        Ok(count) => match say_data(&section[..count], out) {
            Ok(()) => Ok(count),
            Err(_) => unreachable!(),
        },
        Err(fault) => Err(fault),
    }
}

impl Sending {
    /// Sends one frame of its data, or the empty frame behind an M_FILE behind which none is due; else it waits.
    pub(crate) fn go_on<K: Desk>(
        &mut self,
        alloc: Global,
        block: u16,
        desk: &mut K,
        out: &mut Bytes,
    ) -> Result<SendStep, DeskFault>
        requires some { 0 < block }
        requires fits { block ≤ 32767 }
        requires ready { K.ready desk.old }
        requires in_session { (K.part desk.old).open_now ≡ true }
        requires claim { (K.part desk.old).claim ≡ claim_of (Some (sending_text self.old)) }
        ensures row { Steps block (Some (sending_text self.old)) K.alone (K.stand desk.old) (K.stand desk.new) (Some (sending_text self.new)) out.old.list out.new.list result }
        ensures same { claim_of (Some (sending_text self.new)) ≡ claim_of (Some (sending_text self.old)) }
        ensures part { K.part desk.new ≡ K.part desk.old }
        ensures ready { K.ready desk.new }
    {
        if self.place < self.key.size {
            self.send_section(alloc, block, desk, out)
        } else if self.bare {
            match say_data(&[], out) {
                Ok(()) => {
                    self.bare = false;
                    Ok(SendStep::Sent)
                }
                Err(_) => Err(DeskFault::NoMemory),
            }
        } else {
            Ok(SendStep::Waiting)
        }
    }

    /// Sends its next data, as much as fits a frame. The room for it is made before the desk is asked.
    fn send_section<K: Desk>(
        &mut self,
        alloc: Global,
        block: u16,
        desk: &mut K,
        out: &mut Bytes,
    ) -> Result<SendStep, DeskFault>
        requires some { 0 < block }
        requires fits { block ≤ 32767 }
        requires left { self.old.place < self.old.key.size }
        requires ready { K.ready desk.old }
        requires in_session { (K.part desk.old).open_now ≡ true }
        requires claim { (K.part desk.old).claim ≡ claim_of (Some (sending_text self.old)) }
        ensures row { Steps block (Some (sending_text self.old)) K.alone (K.stand desk.old) (K.stand desk.new) (Some (sending_text self.new)) out.old.list out.new.list result }
        ensures same { claim_of (Some (sending_text self.new)) ≡ claim_of (Some (sending_text self.old)) }
        ensures part { K.part desk.new ≡ K.part desk.old }
        ensures ready { K.ready desk.new }
    {
        let most = usize::from(block);
        let mut section = match zeros(alloc, most) {
            Ok(section) => section,
            Err(_) => return Err(DeskFault::NoMemory),
        };
        match out.reserve(2 + most) {
            Ok(()) => {}
            Err(_) => return Err(DeskFault::NoMemory),
        }
        match pass_on(self.place, section.as_mut_slice(), desk, out) {
            Ok(count) => {
                prove!(count as u64 <= self.key.size - self.place);
                self.place += count as u64;
                Ok(SendStep::Sent)
            }
            Err(fault) => Err(fault),
        }
    }
}
