use crate::callers::caller;
use crate::closing::{Closed, serve_new};
use crate::waits::Crossing;
use binkp_link::MemLine;
use mem_store::{LogEntry, LogRecord};
use mem_talk::{Offered, address, has_each};
use session_core::End;
use session_threads::{NoStalls, Over};
use std::alloc::Global;

// What came of a session: the place of its line, its number, whether it finished, and how many files it received.
#[derive(Debug, Clone, Copy, PartialEq, Eq)]
struct Came {
    place: u32,
    session: u32,
    finished: bool,
    received: u32,
}

fn told(over: &Over<MemLine>) -> Came {
    let report = &over.report;
    Came {
        place: over.place,
        session: report.session,
        finished: report.end == End::Finished,
        received: report.received,
    }
}

fn came_of(closed: &Closed, place: usize) -> Option<Came> {
    match closed.overs.get(place) {
        Some(over) => Some(told(over)),
        None => None,
    }
}

// Whether that seat's session told that it ended.
fn ended(closed: &Closed, seat: u32) -> bool {
    closed.order.contains(&seat)
}

// The seat of a record, and the session that it names.
fn made_by(entry: &LogEntry) -> (u32, u32) {
    match entry.record() {
        LogRecord::Received { session, .. } => (entry.seat(), *session),
        _ => (entry.seat(), 0),
    }
}

fn recorded(closed: &Closed, place: usize) -> Option<(u32, u32)> {
    match closed.desk.desk.hub.store.records().get(place) {
        Some(entry) => Some(made_by(entry)),
        None => None,
    }
}

// How many files the hub has, and whether it has just these of that node.
fn has(alloc: Global, closed: &Closed, node: u16, files: &[Offered]) -> Option<bool> {
    let from = address(alloc, node).ok()?;
    has_each(alloc, &closed.desk.desk.hub.store, &from, files).ok()
}

#[test]
fn caller_is_answered_in_a_thread(rt: HostRuntime) {
    let alloc = rt.alloc();
    let line = caller(alloc, 2, Offered(1, 5)).expect(&rt, "memory");
    let closed = serve_new(&rt, alloc, NoStalls, line, None).expect(&rt, "memory");
    let wanted = Came {
        place: 0,
        session: 1,
        finished: true,
        received: 1,
    };
    assert_eq!(rt; came_of(&closed, 0), Some(wanted));
    assert_eq!(rt; closed.overs.len(), 1);
    assert_eq!(rt;
        (ended(&closed, 1), closed.order.len(), closed.more),
        (true, 1, None)
    );
    assert_eq!(rt; has(alloc, &closed, 2, &[Offered(1, 5)]), Some(true));
    assert_eq!(rt; recorded(&closed, 0), Some((1, 1)));
}

// The second of two callers is answered while the first is logged in, from its login to its end.
#[test]
fn two_callers_are_answered_at_a_time(rt: HostRuntime) {
    let alloc = rt.alloc();
    let first = caller(alloc, 2, Offered(1, 5)).expect(&rt, "memory");
    let second = caller(alloc, 2, Offered(2, 4000));
    let closed = serve_new(&rt, alloc, Crossing::new(), first, second).expect(&rt, "memory");
    let wanted = Came {
        place: 0,
        session: 1,
        finished: true,
        received: 1,
    };
    assert_eq!(rt; came_of(&closed, 0), Some(wanted));
    assert_eq!(rt;
        came_of(&closed, 1),
        Some(Came {
            place: 1,
            session: 2,
            ..wanted
        })
    );
    assert_eq!(rt; (ended(&closed, 1), ended(&closed, 2)), (true, true));
    assert_eq!(rt; (closed.order.len(), closed.more), (2, None));
    assert_eq!(rt;
        has(alloc, &closed, 2, &[Offered(1, 5), Offered(2, 4000)]),
        Some(true)
    );
    assert_eq!(rt;
        (recorded(&closed, 0), recorded(&closed, 1)),
        (Some((2, 2)), Some((1, 1)))
    );
}
