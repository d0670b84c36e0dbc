//! What a session does with data of the file that it holds.
ghost use Rattle.std.specs.Prelude.{◌≡◌, length, Some};
ghost use Rattle.node_model.specs.Calls.{Data_call};
ghost use Rattle.node_model.specs.Desks.{DataExact, Fits, data_answer};
ghost use Rattle.hub_core.specs.Holders.{HoldsOf};
ghost use Rattle.hub_core.specs.Hubs.{hub_state, sitting_of, sitting_part, with_sitting};
ghost use Rattle.hub_core.specs.HubCalls.{HasTurn, Does};

use crate::hold_index::HoldIndex;
use crate::parts::{put_last, put_more, refusal};
use crate::places::{Open, Seats};
use crate::{DataIn, DeskFault};
use node_model::Store;

/// Data of the held file comes to the session of a seat, which is out of it. It takes no memory.
pub fn take_data<S: Store>(
    store: &mut S,
    seats: &Seats,
    holds: &mut HoldIndex,
    seat: u32,
    session: &mut Open,
    bytes: &[u8],
) -> Result<DataIn, DeskFault>
    requires turn { HasTurn (S.stand store.old) (with_sitting seat (Some (sitting_of session.old)) (hub_state seats.now)) seat }
    requires fits { Fits (sitting_part (Some (sitting_of session.old))) (length bytes.now) }
    requires finds { HoldsOf holds.old (with_sitting seat (Some (sitting_of session.old)) (hub_state seats.now)).chairs }
    ensures does { Does (S.stand store.old) (with_sitting seat (Some (sitting_of session.old)) (hub_state seats.now)) seat (Data_call bytes.now) (data_answer result) (S.stand store.new) (with_sitting seat (Some (sitting_of session.new)) (hub_state seats.now)) }
    ensures exact { DataExact (sitting_part (Some (sitting_of session.old))).held (length bytes.now) (data_answer result) }
    ensures finds { HoldsOf holds.new (with_sitting seat (Some (sitting_of session.new)) (hub_state seats.now)).chairs }
{
    let _seats = seats;
    let _seat = seat;
    let Some(taken) = &mut session.hold else {
        unreachable!()
    };
    let left = taken.key.size - taken.have;
    let came = bytes.len() as u64;
    if came < left {
        return match put_more(store, &session.first, taken, bytes) {
            Ok(reached) => {
                taken.have += came;
                if reached {
                    taken.places -= 1;
                }
                Ok(DataIn::More)
            }
            Err(fault) => Err(refusal(store, fault)),
        };
    }
    match put_last(
        store,
        &session.first,
        taken,
        bytes,
        session.number,
        session.secure,
    ) {
        Ok(()) => {
            holds.release(session);
            session.hold = None;
            Ok(DataIn::Whole)
        }
        Err(fault) => Err(refusal(store, fault)),
    }
}
