//! What a command that holds one session asks for.
ghost use Rattle.std.specs.Prelude.{◌≡◌, IfOk, Err};
ghost use Rattle.ftn_addr.specs.Address.{Address, address};
ghost use Rattle.session_auth.specs.Sides.{Calls, Side as AnySide, side_of};
ghost use Rattle.command_words.specs.Forms.{session_command};
ghost use Rattle.binkp_mailer.specs.Words.{AsksFor, Spells};
ghost use Rattle.binkp_mailer.specs.declared.words.WordsFault.TheVariants.{Usage};

use command_words::SessionForm;
use ftn_addr::{Addr, AddrFault, Bytes, read_addr};
use session_core::Side;
use std::alloc::Global;

/// Why a command asks for nothing.
#[derive(Clone, Copy)]
pub(crate) enum WordsFault {
    Usage,
    NoMemory,
}

/// The address in the home's domain that a text spells.
fn read_called(alloc: Global, text: &[u8], home: &Addr) -> Result<Addr, WordsFault>
    ensures ok { IfOk result (λ peer. Spells (address home.now) text.now (address peer)) }
    ensures usage { result ≡ Err Usage → (peer : Address) → Spells (address home.now) text.now peer → ⊥ }
{
    let peer = match read_addr(alloc, text, home) {
        Ok(peer) => peer,
        Err(AddrFault::NoMemory) => return Err(WordsFault::NoMemory),
        Err(_) => return Err(WordsFault::Usage),
    };
    if peer.domain.as_slice() == home.domain.as_slice() {
        Ok(peer)
    } else {
        Err(WordsFault::Usage)
    }
}

// The side that calls the node of an address.
fn read_side(alloc: Global, text: &Bytes, home: &Addr) -> Result<Side, WordsFault>
    ensures ok { IfOk result (λ side. (peer : Address) × (side_of side ≡ Calls peer) × Spells (address home.now) text.now.list peer) }
    ensures usage { result ≡ Err Usage → (peer : Address) → Spells (address home.now) text.now.list peer → ⊥ }
{
    match read_called(alloc, text.as_slice(), home) {
        Ok(peer) => Ok(Side::Calls(peer)),
        Err(fault) => Err(fault),
    }
}

/// What a command asks for at a node with that home: to answer a caller, or to call the node of an address, which has the home's
/// domain. What the address leaves out is the home's.
pub(crate) fn asked_side(
    alloc: Global,
    form: SessionForm<'_>,
    home: &Addr,
) -> Result<Side, WordsFault>
    ensures ok { IfOk result (λ side. AsksFor (session_command form.entry) (address home.now) (side_of side)) }
    ensures usage { result ≡ Err Usage → (side : AnySide) → AsksFor (session_command form.entry) (address home.now) side → ⊥ }
{
    match form {
        SessionForm::Answer => Ok(Side::Answers),
        SessionForm::Call(text) => read_side(alloc, text, home),
    }
}
