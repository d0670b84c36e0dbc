//! The program as one of two nodes.
ghost use Rattle.node_model.specs.Stores.{StoreState, IfTold};
ghost use Rattle.binkp_serve.specs.GiveSteps.{GivesAreSteps};
ghost use Rattle.binkp_mailer.specs.OneNode.{CallsAreCourses, OpeningsAreStops, SessionsAreCourses};
ghost use Rattle.binkp_mailer.specs.TopCall.{Calls_in_turn, HasOnceTold, StaysTold};

/// Every run of a session at a desk that tells its node is a course at that node. Step by step it asks the node for nothing,
/// knocks, opens a session, takes a message, makes an own turn or leaves, and each of these is what the world of two nodes
/// says of it (`world_pair`), behind steps of other seats.
pub fn one_node()
    ensures { SessionsAreCourses }
{}

/// The session of every call over a store that tells what it keeps is such a course, at the node of a new hub over it.
pub fn calls_are_courses()
    ensures { CallsAreCourses }
{}

/// A store that was just opened is what a stop leaves of any node that kept the same.
pub fn openings_are_stops()
    ensures { OpeningsAreStops }
{}

/// Each call that gives a received file, holds it or finds none is a step of the node of any hub over the store, where that tells what
/// it keeps. The world of two nodes has it as an event.
pub fn gives_are_steps()
    ensures { GivesAreSteps }
{}

/// No sender and key gets two receipts over any number of calls over one store, whatever their statuses.
pub fn one_receipt_over_calls()
    ensures { (store new : StoreState) → Calls_in_turn store new → IfTold store.content (λ old. HasOnceTold store.content → HasOnceTold new.content) }
{}

/// What is received stays received over any number of calls over one store, whatever their statuses.
pub fn receipts_stay_over_calls()
    ensures { (store new : StoreState) → Calls_in_turn store new → StaysTold store.content new.content }
{}
