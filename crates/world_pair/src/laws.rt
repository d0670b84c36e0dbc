//! What holds after every run of two nodes.
ghost use Rattle.std.specs.Prelude.{ℕ, List};
ghost use Rattle.node_model.specs.Lives.{Lives};
ghost use Rattle.node_model.specs.Lists.{Member};
ghost use Rattle.node_model.specs.Node.{Node, blank};
ghost use Rattle.node_model.specs.Talk.{Message, End};
ghost use Rattle.world_pair.specs.Course.{Course, TurnMade};
ghost use Rattle.world_pair.specs.World.{World, Begins, Reaches};
ghost use Rattle.world_pair.specs.Law.{AfterEveryRun, OneReceipt, OneReceiptLaw, PairLaw};
ghost use Rattle.world_pair.specs.CrossingRun.{crossing_beginning, CrossedOnce};
ghost use Rattle.world_pair.specs.FromDesk.{CallsAreEvents, OpeningsAreEvents, LeavesAreEvents, StopsAreEvents, TakesHappen, TakesStop, TurnsHappen, TurnsStop};
ghost use Rattle.world_pair.specs.MixedRun.{mixed_beginning, ReceivesMixed};
ghost use Rattle.world_pair.specs.Nodes.{HasLived, StaysSound, KeepsAll};
ghost use Rattle.world_pair.specs.Offers.{NothingLeft, CompletenessLaw, FinishedLaw};
ghost use Rattle.world_pair.specs.Parts.{EntriesAreFiles, ReceiptsAreWhole, AcknowledgementsStand, PartsAreFronts, DataGoesOn, SettledStand, OffersAreAccounted, EventsKeep};
ghost use Rattle.world_pair.specs.TwoNames.{called_twice, ReceivesTwice};
ghost use Rattle.world_pair.specs.WorkedRun.{worked_beginning, WentAcross};

/// After every run each file that one node queued for the other was received there at most once, and whole.
pub fn one_receipt_law()
    ensures { OneReceiptLaw }
{}

/// After every run each settled entry stands at the other node, received or refused, and so does each file that a
/// session offered which both ends finished without a skip.
pub fn pair_law()
    ensures { PairLaw }
{}

/// In a run where an end ended its batch, having taken no skip, each entry for its peers that no other session had
/// claimed then stands at the other node from then on.
pub fn completeness_law()
    ensures { CompletenessLaw }
{}

/// A session that finished without a skip ended its batch in the run, and so all that it could have offered then stands
/// at the other node.
pub fn finished_sessions_deliver()
    ensures { FinishedLaw }
{}

/// A turn says the end of a batch only where no live entry for the session's peers is unclaimed and unskipped.
pub fn batch_ends_when_nothing_is_left()
    ensures { (seat : ℕ) (old : Node) (was : Course) (new : Node) (course : Course)
        (sent : List Message) → TurnMade seat old was new course sent → Member End sent
        → NothingLeft seat old }
{}

// The nodes by themselves.

/// What a node does in a run is a life of its own: steps of its seats, and stops.
pub fn nodes_live()
    ensures { (n : ℕ) (w v : World) → Begins w → Reaches n w v
        → HasLived v.x.node × HasLived v.y.node }
{}

/// So both nodes are sound after every run, unless their stores are broken, and neither has a second receipt.
pub fn nodes_stay_sound()
    ensures { (n : ℕ) (w v : World) → Begins w → Reaches n w v
        → StaysSound v.x.node × StaysSound v.y.node }
{}

/// What was queued, received or refused at a node stays so in every run.
pub fn nodes_keep_all()
    ensures { (n : ℕ) (w v : World) → Reaches n w v
        → KeepsAll w.x.node v.x.node × KeepsAll w.y.node v.y.node }
{}

// The parts of what holds.

/// Every event keeps all that holds.
pub fn events_keep()
    ensures { EventsKeep }
{}

/// Each entry was queued as a file, a live one with its bytes, and each file that was queued has an entry.
pub fn entries_are_files()
    ensures { AfterEveryRun EntriesAreFiles }
{}

/// Each receipt is of the sender and whole.
pub fn receipts_are_whole()
    ensures { AfterEveryRun ReceiptsAreWhole }
{}

/// Each acknowledgement under way names what stands at the receiver.
pub fn acknowledgements_stand()
    ensures { AfterEveryRun AcknowledgementsStand }
{}

/// Each mark and each held part is the front of a queued file.
pub fn parts_are_fronts()
    ensures { AfterEveryRun PartsAreFronts }
{}

/// The data under way are sections of queued files, and go on from what the receiver holds.
pub fn data_goes_on()
    ensures { AfterEveryRun DataGoesOn }
{}

/// Each settled entry stands at the receiver.
pub fn settled_stand()
    ensures { AfterEveryRun SettledStand }
{}

/// Each entry that an open session offered is claimed, settled or skipped.
pub fn offers_are_accounted()
    ensures { AfterEveryRun OffersAreAccounted }
{}

// What a desk that tells its node does is events.

/// Every step of a call of no session is an event, whatever is answered.
pub fn calls_are_events()
    ensures { CallsAreEvents }
{}

/// So is every step of a call that opens a session.
pub fn openings_are_events()
    ensures { OpeningsAreEvents }
{}

/// Every step of an end's leave is one or two events.
pub fn leaves_are_events()
    ensures { LeavesAreEvents }
{}

/// Where a session takes a message at a desk, that happens at its node: behind steps of other seats, and before the
/// queue row that may answer a request.
pub fn takes_happen()
    ensures { TakesHappen }
{}

/// So it is where a session makes its own turn.
pub fn turns_happen()
    ensures { TurnsHappen }
{}

/// Every stop inside a call that no row makes is some events, whatever durable state it leaves.
pub fn stops_are_events()
    ensures { StopsAreEvents }
{}

/// Every stop inside the call of a row that takes a message is one event.
pub fn takes_stop()
    ensures { TakesStop }
{}

/// So is every stop inside the call of an own turn.
pub fn turns_stop()
    ensures { TurnsStop }
{}

// The law speaks of something.

/// A file goes across a line that dropped and a stop of its receiver, once and with its bytes.
pub fn worked_run_happens()
    ensures { Begins worked_beginning
        × ((last : World) × Reaches 26 worked_beginning last × WentAcross last) }
{}

/// Two sessions cross with one file: the one is told to skip it, the other drops, and a third brings it across, once.
pub fn crossing_run_happens()
    ensures { Begins crossing_beginning
        × ((last : World) × Reaches 37 crossing_beginning last × CrossedOnce last) }
{}

// The premises are needed.

/// Where two files of one key have other bytes, one may be taken on from the mark of the other, and what is received is
/// neither.
pub fn unequal_bytes_may_mix()
    ensures { Begins mixed_beginning
        × ((last : World) × Reaches 17 mixed_beginning last
        × ReceivesMixed last × (OneReceipt last.x last.y → ⊥)) }
{}

/// Under another first address a file is received again.
pub fn another_name_receives_again()
    ensures { (last : Node) × Lives blank called_twice last × ReceivesTwice last }
{}
