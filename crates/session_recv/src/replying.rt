//! What the receiving half says: one command, one frame.
ghost use Rattle.std.specs.Prelude.{◌≡◌, ◌++◌, OnOk, OnErr};
ghost use Rattle.ftn_addr.specs.Key.{key_of};
ghost use Rattle.ftn_addr.specs.Limits.{IsKey};
ghost use Rattle.binkp_args.specs.Command.{Get, Got, Skip};
ghost use Rattle.session_recv.specs.Replies.{command_bytes};

use binkp_args::{Command, fits_a_frame, write_command};
use ftn_addr::{Bytes, FileKey, NoMemory};
use std::alloc::Global;

/// M_GOT.
pub fn say_got(alloc: Global, key: FileKey, out: &mut Bytes) -> Result<(), NoMemory>
    requires { IsKey (key_of key) }
    ensures ok { OnOk result (out.new.list ≡ out.old.list ++ command_bytes (Got (key_of key))) }
    ensures err { OnErr result (out.new.list ≡ out.old.list) }
{
    fits_a_frame();
    write_command(alloc, &Command::Got(key), out)
}

/// M_SKIP.
pub fn say_skip(alloc: Global, key: FileKey, out: &mut Bytes) -> Result<(), NoMemory>
    requires { IsKey (key_of key) }
    ensures ok { OnOk result (out.new.list ≡ out.old.list ++ command_bytes (Skip (key_of key))) }
    ensures err { OnErr result (out.new.list ≡ out.old.list) }
{
    fits_a_frame();
    write_command(alloc, &Command::Skip(key), out)
}

/// M_GET, from that place.
pub fn say_get(alloc: Global, key: &FileKey, place: u64, out: &mut Bytes) -> Result<(), NoMemory>
    requires { IsKey (key_of key.now) }
    ensures ok { OnOk result (out.new.list ≡ out.old.list ++ command_bytes (Get (key_of key.now) place)) }
    ensures err { OnErr result (out.new.list ≡ out.old.list) }
{
    let key = key.copy(alloc)?;
    fits_a_frame();
    write_command(alloc, &Command::Get(key, place), out)
}
