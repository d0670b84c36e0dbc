//! Sessions at the seats of a hub, in and out.
ghost use Rattle.std.specs.Prelude.{◌≡◌, ◌<◌, ◌&&◌, nat_le, count_by, map, IfOk, None, length, option_map};
ghost use Rattle.ftn_addr.specs.Address.{address};
ghost use Rattle.ftn_addr.specs.Counts.{next_count};
ghost use Rattle.node_model.specs.Rows.{is_answering};
ghost use Rattle.hub_core.specs.Anew.{anew, chair_anew};
ghost use Rattle.hub_core.specs.Hubs.{IsNewSitting, begun_with, busier, chair_of, dropped_sitting, hub_state, sitting_at, sitting_of, with_sitting};
ghost use Rattle.hub_core.specs.Steps.{chair_answers};

use crate::judging::answering;
use crate::places::{Offers, Open, Place, Seats};
use crate::skips::Skips;
use ftn_addr::{Addr, NoMemory};
use node_model::Role;
use std::alloc::Global;

fn copy_all(alloc: Global, addrs: &[Addr]) -> Result<Vec<Addr>, NoMemory>
    ensures { IfOk result (λ copies. map address copies.items ≡ map address addrs.now) }
{
    let mut copies = Vec::new(alloc);
    for addr in addrs {
        copies.push(addr.copy(alloc)?)?;
    }
    Ok(copies)
}

// One more; a count at its end stays there.
pub fn one_more(count: u64) -> u64
    ensures { result ≡ next_count count }
{
    count.saturating_add(1)
}

impl Open {
    /// A session that claims and holds nothing, with copies of the peer's addresses.
    pub fn new(
        alloc: Global,
        number: u32,
        role: Role,
        peers: &[Addr],
        secure: bool,
        moment: u64,
    ) -> Result<Open, NoMemory>
        requires { 0 < length peers.now }
        ensures { IfOk result (λ begun. IsNewSitting number role (map address peers.now) secure moment (sitting_of begun)) }
    {
        match peers {
            [first, others @ ..] => Ok(Open {
                number,
                role,
                first: first.copy(alloc)?,
                others: copy_all(alloc, others)?,
                secure,
                moment,
                offers: Offers {
                    claim: None,
                    skips: Skips::new(alloc),
                    passed: None,
                },
                hold: None,
                missed: Vec::new(alloc),
            }),
            [] => unreachable!(),
        }
    }
}

impl Seats {
    /// Takes the session of a seat out of it.
    pub fn take_session(&mut self, seat: u32) -> Option<Open>
        requires { seat < length (hub_state self.old).chairs }
        ensures session { option_map sitting_of result ≡ sitting_at (hub_state self.old) seat }
        ensures after { hub_state self.new ≡ with_sitting seat None (hub_state self.old) }
    {
        let place = &mut self.places[seat as usize];
        place.session.take()
    }

    /// Puts a session at a seat.
    pub fn put_session(&mut self, seat: u32, session: Option<Open>)
        requires { seat < length (hub_state self.old).chairs }
        ensures { hub_state self.new ≡ with_sitting seat (option_map sitting_of session) (hub_state self.old) }
    {
        let place = &mut self.places[seat as usize];
        place.session = session;
    }

    /// Whether a caller of that role is turned away.
    pub fn turns_away(&self, role: Role) -> bool
        ensures { result ≡ (is_answering role && nat_le self.now.conf.max_servers (count_by chair_answers (hub_state self.now).chairs)) }
    {
        match role {
            Role::Calls => false,
            Role::Answers => usize::from(self.conf.max_servers) <= answering(&self.places),
        }
    }

    /// Counts a caller that was turned away.
    pub fn count_busy(&mut self, seat: u32)
        requires { seat < length (hub_state self.old).chairs }
        ensures { hub_state self.new ≡ busier seat (hub_state self.old) }
    {
        let place = &mut self.places[seat as usize];
        place.busy = one_more(place.busy);
    }

    /// Begins a session at a seat.
    pub fn begin_session(&mut self, seat: u32, session: Open)
        requires { seat < length (hub_state self.old).chairs }
        ensures { hub_state self.new ≡ begun_with seat (sitting_of session) (hub_state self.old) }
    {
        self.begun = session.number;
        self.put_session(seat, Some(session));
    }

    /// Notes that a session was told, over a broken store, that it holds nothing more.
    pub fn drop_hold(&mut self, seat: u32)
        requires { seat < length (hub_state self.old).chairs }
        ensures { hub_state self.new ≡ with_sitting seat (option_map dropped_sitting (sitting_at (hub_state self.old) seat)) (hub_state self.old) }
    {
        let session = self.take_session(seat);
        self.put_session(seat, dropped(session));
    }

    /// Has each session look for what it offers next from the start.
    pub fn look_anew(&mut self)
        ensures { hub_state self.new ≡ anew (hub_state self.old) }
    {
        look_anew_at(self.places.as_mut_slice());
    }
}

fn look_anew_at(places: &mut [Place])
    ensures { map chair_of places.new ≡ map chair_anew (map chair_of places.old) }
{
    for place in places.iter_mut() {
        place.look_anew();
    }
}

impl Place {
    // Its session, where there is one, looks for what it offers next from the start.
    fn look_anew(&mut self)
        ensures { chair_of self.new ≡ chair_anew (chair_of self.old) }
    {
        if let Some(session) = &mut self.session {
            session.offers.passed = None;
        }
    }
}

fn dropped(session: Option<Open>) -> Option<Open>
    ensures { option_map sitting_of result ≡ option_map dropped_sitting (option_map sitting_of session) }
{
    match session {
        Some(mut session) => {
            if let Some(taken) = &mut session.hold {
                taken.dropped = true;
            }
            Some(session)
        }
        None => None,
    }
}
