//! What a login says: one command, one frame.
ghost use Rattle.std.specs.Prelude.{◌≡◌, ◌<◌, ◌++◌, [], ◌∷◌, length, OnOk, OnErr};
ghost use Rattle.binkp_args.specs.Command.{command_text, Nul, Pwd, Accept, Error};
ghost use Rattle.binkp_args.specs.Writing.{argument_of, IsKnown};
ghost use Rattle.session_auth.specs.Login.{fault_text};
ghost use Rattle.session_auth.specs.Says.{said_bytes};

use crate::LoginFault;
use binkp_args::{Command, write_command};
use ftn_addr::{Bytes, NoMemory};
use std::alloc::Global;

/// Says one command.
#[tactic(auto, using(std::proofs::lemmas::Grind::common_steps))]
pub(crate) fn say(alloc: Global, command: &Command, out: &mut Bytes) -> Result<(), NoMemory>
    requires known { IsKnown (command_text command.now) }
    requires fits { length (argument_of (command_text command.now)) < 32767 }
    ensures ok { OnOk result (out.new.list ≡ out.old.list ++ said_bytes (command_text command.now ∷ [])) }
    ensures err { OnErr result (out.new.list ≡ out.old.list) }
{
    write_command(alloc, command, out)
}

/// M_NUL with a text of less than a frame.
pub(crate) fn say_text(alloc: Global, text: Bytes, out: &mut Bytes) -> Result<(), NoMemory>
    requires { length text.list < 32767 }
    ensures ok { OnOk result (out.new.list ≡ out.old.list ++ said_bytes (Nul text.list ∷ [])) }
    ensures err { OnErr result (out.new.list ≡ out.old.list) }
{
    say(alloc, &Command::Nul(text), out)
}

/// M_PWD.
pub(crate) fn say_password(alloc: Global, text: Bytes, out: &mut Bytes) -> Result<(), NoMemory>
    requires { length text.list < 32767 }
    ensures ok { OnOk result (out.new.list ≡ out.old.list ++ said_bytes (Pwd text.list ∷ [])) }
    ensures err { OnErr result (out.new.list ≡ out.old.list) }
{
    say(alloc, &Command::Pwd(text), out)
}

/// M_OK.
pub(crate) fn say_accepted(alloc: Global, text: &[u8], out: &mut Bytes) -> Result<(), NoMemory>
    requires { length text.now < 32767 }
    ensures ok { OnOk result (out.new.list ≡ out.old.list ++ said_bytes (Accept text.now ∷ [])) }
    ensures err { OnErr result (out.new.list ≡ out.old.list) }
{
    let text = Bytes::from_slice(alloc, text)?;
    say(alloc, &Command::Accept(text), out)
}

/// M_ERR.
pub(crate) fn say_error(alloc: Global, text: &[u8], out: &mut Bytes) -> Result<(), NoMemory>
    requires { length text.now < 32767 }
    ensures ok { OnOk result (out.new.list ≡ out.old.list ++ said_bytes (Error text.now ∷ [])) }
    ensures err { OnErr result (out.new.list ≡ out.old.list) }
{
    let text = Bytes::from_slice(alloc, text)?;
    say(alloc, &Command::Err(text), out)
}

/// The M_ERR that a fault owes.
pub(crate) fn say_fault(alloc: Global, fault: LoginFault, out: &mut Bytes) -> Result<(), NoMemory>
    ensures ok { OnOk result (out.new.list ≡ out.old.list ++ said_bytes (Error (fault_text fault) ∷ [])) }
    ensures err { OnErr result (out.new.list ≡ out.old.list) }
{
    match fault {
        LoginFault::NotCalled => say_error(alloc, b"not the called address", out),
        LoginFault::NoAddress => say_error(alloc, b"broken frame", out),
        LoginFault::OutOfTurn => say_error(alloc, b"broken frame", out),
    }
}
