//! What the receiving half takes.
ghost use Rattle.std.specs.Prelude.{◌≡◌, ◌<◌, ◌≤◌, None, length, true};
ghost use Rattle.ftn_addr.specs.Key.{key_of};
ghost use Rattle.ftn_addr.specs.Limits.{IsKey};
ghost use Rattle.node_model.specs.Talk.{Got, Get, Skip, Talk, FileTaken, DataTaken};
ghost use Rattle.session_recv.specs.Replies.{SaysOnly, DidTake, held_in, held_of, holding};
ghost use Rattle.session_recv.specs.declared.holding.Holding.TheVariants as H;

use crate::holding::{Held, Holding, Receiver};
use crate::replying::{say_get, say_got, say_skip};
use ftn_addr::{Bytes, FileKey};
use node_model::{DataIn, Desk, DeskFault, FileIn};
use std::alloc::Global;
use std::mem;

/// What became of a message.
#[derive(Clone, Copy, Debug, PartialEq, Eq)]
pub enum RecvStep {
    More,
    /// The same file was offered again from a place that isn't the one asked for.
    Late,
    /// More data came than the file has.
    TooMuch,
}

fn acknowledge(alloc: Global, key: FileKey, out: &mut Bytes) -> Result<RecvStep, DeskFault>
    requires { IsKey (key_of key) }
    ensures { SaysOnly (Got (key_of key)) out.old.list out.new.list result }
{
    match say_got(alloc, key, out) {
        Ok(()) => Ok(RecvStep::More),
        Err(_) => Err(DeskFault::NoMemory),
    }
}

/// Asks for a file at another time.
fn pass_over(alloc: Global, key: FileKey, out: &mut Bytes) -> Result<RecvStep, DeskFault>
    requires { IsKey (key_of key) }
    ensures { SaysOnly (Skip (key_of key)) out.old.list out.new.list result }
{
    match say_skip(alloc, key, out) {
        Ok(()) => Ok(RecvStep::More),
        Err(_) => Err(DeskFault::NoMemory),
    }
}

/// Asks for a file from another place than it was offered from.
fn ask_from(
    alloc: Global,
    key: &FileKey,
    place: u64,
    out: &mut Bytes,
) -> Result<RecvStep, DeskFault>
    requires { IsKey (key_of key.now) }
    ensures { SaysOnly (Get (key_of key.now) place) out.old.list out.new.list result }
{
    match say_get(alloc, key, place, out) {
        Ok(()) => Ok(RecvStep::More),
        Err(_) => Err(DeskFault::NoMemory),
    }
}

impl Receiver {
    /// Before the first file.
    pub fn new() -> Receiver
        ensures held { held_of result ≡ None }
        ensures received { result.received ≡ 0 }
    {
        Receiver {
            holding: Holding::Idle,
            received: 0,
        }
    }

    /// The peer offers a file from that offset. Its answer is M_GOT where the file isn't wanted any more, M_SKIP where
    /// another session holds it, and M_GET where it is wanted from another place.
    ///
    /// # Errors
    /// The desk's, at which nothing is written. `NoMemory` also where the answer found no room; the desk was asked then.
    pub fn take_file<K: Desk>(
        &mut self,
        alloc: Global,
        key: FileKey,
        offset: u64,
        desk: &mut K,
        out: &mut Bytes,
    ) -> Result<RecvStep, DeskFault>
        requires ready { K.ready desk.old }
        requires limits { IsKey (key_of key) }
        requires in_session { (K.part desk.old).open_now ≡ true }
        requires held { (K.part desk.old).held ≡ held_of self.old }
        ensures row { (t : Talk) → DidTake (FileTaken t (key_of key) offset) K.alone (K.stand desk.old) (K.stand desk.new) (held_of self.old) (held_of self.new) self.old.received self.new.received out.old.list out.new.list result }
        ensures part { K.part desk.new ≡ holding (K.part desk.old) (held_of self.new) }
        ensures ready { K.ready desk.new }
    {
        match desk.file_in(alloc, &key, offset) {
            Ok(FileIn::Go) => {
                let left = key.size.saturating_sub(offset);
                self.holding = Holding::Taking(Held { key, left });
                Ok(RecvStep::More)
            }
            Ok(FileIn::Whole) => {
                let received = self.received.saturating_add(1);
                *self = Receiver {
                    holding: Holding::Idle,
                    received,
                };
                acknowledge(alloc, key, out)
            }
            Ok(FileIn::Have) => {
                self.holding = Holding::Idle;
                acknowledge(alloc, key, out)
            }
            Ok(FileIn::Refuse) => {
                self.holding = Holding::Idle;
                acknowledge(alloc, key, out)
            }
            Ok(FileIn::Elsewhere) => {
                self.holding = Holding::Idle;
                pass_over(alloc, key, out)
            }
            Ok(FileIn::From(place)) => {
                let left = key.size.saturating_sub(place);
                let step = ask_from(alloc, &key, place, out);
                self.holding = Holding::Dropping(Held { key, left });
                step
            }
            Ok(FileIn::Late) => {
                self.holding = Holding::Idle;
                Ok(RecvStep::Late)
            }
            Err(fault) => {
                self.holding = Holding::Idle;
                Err(fault)
            }
        }
    }

    /// Data comes. It is dropped where none is taken, and M_GOT answers the last of a file, behind its receipt.
    ///
    /// # Errors
    /// The desk's, at which nothing is written. `NoMemory` also where M_GOT found no room; the desk was asked then.
    pub fn take_data<K: Desk>(
        &mut self,
        alloc: Global,
        bytes: &[u8],
        desk: &mut K,
        out: &mut Bytes,
    ) -> Result<RecvStep, DeskFault>
        requires ready { K.ready desk.old }
        requires held { (K.part desk.old).held ≡ held_of self.old }
        ensures row { (t : Talk) → DidTake (DataTaken (held_of self.old) t bytes.now) K.alone (K.stand desk.old) (K.stand desk.new) (held_of self.old) (held_of self.new) self.old.received self.new.received out.old.list out.new.list result }
        ensures part { K.part desk.new ≡ holding (K.part desk.old) (held_of self.new) }
        ensures ready { K.ready desk.new }
    {
        match mem::replace(&mut self.holding, Holding::Idle) {
            Holding::Idle => Ok(RecvStep::More),
            Holding::Dropping(held) => {
                self.holding = Holding::Dropping(held);
                Ok(RecvStep::More)
            }
            Holding::Taking(held) => {
                if held.left < bytes.len() as u64 {
                    self.holding = Holding::Taking(held);
                    return Ok(RecvStep::TooMuch);
                }
                self.put_data(alloc, held, bytes, desk, out)
            }
        }
    }

    /// Data of the held file that fits.
    fn put_data<K: Desk>(
        &mut self,
        alloc: Global,
        held: Held,
        bytes: &[u8],
        desk: &mut K,
        out: &mut Bytes,
    ) -> Result<RecvStep, DeskFault>
        requires ready { K.ready desk.old }
        requires fits { length bytes.now ≤ held.left }
        requires held { (K.part desk.old).held ≡ held_in (H.Taking held) }
        ensures row { (t : Talk) → DidTake (DataTaken (held_in (H.Taking held)) t bytes.now) K.alone (K.stand desk.old) (K.stand desk.new) (held_in (H.Taking held)) (held_of self.new) self.old.received self.new.received out.old.list out.new.list result }
        ensures part { K.part desk.new ≡ holding (K.part desk.old) (held_of self.new) }
        ensures ready { K.ready desk.new }
    {
        match desk.data_in(bytes) {
            Ok(DataIn::More) => {
                let left = held.left - bytes.len() as u64;
                self.holding = Holding::Taking(Held {
                    key: held.key,
                    left,
                });
                Ok(RecvStep::More)
            }
            Ok(DataIn::Whole) => {
                let received = self.received.saturating_add(1);
                *self = Receiver {
                    holding: Holding::Idle,
                    received,
                };
                acknowledge(alloc, held.key, out)
            }
            Err(fault) => {
                self.holding = Holding::Taking(held);
                Err(fault)
            }
        }
    }
}
