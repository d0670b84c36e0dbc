//! What a sender says: M_FILE, and frames of data.
ghost use Rattle.std.specs.Prelude.{◌≡◌, ◌≤◌, ◌+◌, ◌++◌, length, OnOk, OnErr, IsOk};
ghost use Rattle.ftn_addr.specs.Key.{key_of};
ghost use Rattle.ftn_addr.specs.Limits.{IsKey};
ghost use Rattle.node_model.specs.Talk.{File, Data};
ghost use Rattle.session_send.specs.Senders.{offer_bytes};

use binkp_args::{Command, fits_a_frame, write_command};
use ftn_addr::{Bytes, FileKey, NoMemory};
use std::alloc::Global;

/// M_FILE, from that place.
pub fn say_file(alloc: Global, key: &FileKey, place: u64, out: &mut Bytes) -> Result<(), NoMemory>
    requires { IsKey (key_of key.now) }
    ensures ok { OnOk result (out.new.list ≡ out.old.list ++ offer_bytes (File (key_of key.now) place)) }
    ensures err { OnErr result (out.new.list ≡ out.old.list) }
{
    let key = key.copy(alloc)?;
    fits_a_frame();
    write_command(alloc, &Command::File(key, place), out)
}

/// One frame of data, at most 32,767 bytes. With enough room this takes no memory.
pub fn say_data(bytes: &[u8], out: &mut Bytes) -> Result<(), NoMemory>
    requires { length bytes.now ≤ 32767 }
    ensures ok { OnOk result (out.new.list ≡ out.old.list ++ offer_bytes (Data bytes.now)) }
    ensures err { OnErr result (out.new.list ≡ out.old.list) }
    ensures within { length bytes.now + 2 ≤ out.old.spare → IsOk result }
{
    let len = bytes.len();
    out.reserve(2 + len)?;
    out.push_slice(&[(len / 256) as u8, (len % 256) as u8])?;
    out.push_slice(bytes)
}
