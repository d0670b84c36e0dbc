//! Two nodes that send each other files over lines that drop, and what holds after every run of them.
//!
//! For every list of queued files, calls in both directions, dropped lines and stops of either node, each queued file is
//! received at most once and whole ([`one_receipt_law`]), and its entry is settled only when it stands at the other node,
//! as does each file that a session offered which both ends finished without a skip ([`pair_law`]). `docs/law.md` tells
//! it whole: the events, the premises, and why each of them is needed.
//!
//! The definitions stand in `specs/`, and are to be read in this order: `Course` (a session's rows, with what the law
//! tells of it), `World` (places, ends of lines, events and runs), `Law` (what holds), then what the proof is about:
//! `Flow` and `Invariant` (what every event keeps), `Offers` (what a session offered, and where its batch ends), `Parts`
//! (each part of the invariant by its name), `Nodes` (what each node does by itself), `FromDesk` (what a desk's calls are
//! here). `WorkedRun`, `CrossingRun`, `MixedRun` and `TwoNames` are worked out. A node's steps and a session's rows are
//! those of `node_model`; none of them is restated.
//!
//! - The law: [`one_receipt_law`], [`pair_law`], [`completeness_law`], [`finished_sessions_deliver`],
//!   [`batch_ends_when_nothing_is_left`].
//! - The nodes by themselves: [`nodes_live`], [`nodes_stay_sound`], [`nodes_keep_all`].
//! - The invariant: [`events_keep`], and by part [`entries_are_files`], [`receipts_are_whole`],
//!   [`acknowledgements_stand`], [`parts_are_fronts`], [`data_goes_on`], [`settled_stand`], [`offers_are_accounted`].
//! - What a desk does is such events: [`calls_are_events`], [`openings_are_events`], [`leaves_are_events`],
//!   [`takes_happen`], [`turns_happen`]; and so is a stop inside them: [`stops_are_events`], [`takes_stop`], [`turns_stop`].
//! - That it speaks of something, and why its premises are needed: [`worked_run_happens`], [`crossing_run_happens`];
//!   [`unequal_bytes_may_mix`], [`another_name_receives_again`].
//!
//! Left out: more than two nodes, the login, and bytes on the line. That the program is such a node is missing too: each
//! clause of its session, desk and store has to be led to `FromDesk`, in the program's crate, once both halves of the
//! session stand there.
#![tactic(auto)]

mod laws;

pub use laws::{
    acknowledgements_stand, another_name_receives_again, batch_ends_when_nothing_is_left,
    calls_are_events, completeness_law, crossing_run_happens, data_goes_on, entries_are_files,
    events_keep, finished_sessions_deliver, leaves_are_events, nodes_keep_all, nodes_live,
    nodes_stay_sound, offers_are_accounted, one_receipt_law, openings_are_events, pair_law,
    parts_are_fronts, receipts_are_whole, settled_stand, stops_are_events, takes_happen,
    takes_stop, turns_happen, turns_stop, unequal_bytes_may_mix, worked_run_happens,
};
