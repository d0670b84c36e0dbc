//! What is proved of every take-in.
ghost use Rattle.outbound_desk.specs.TakenIn.{TakeInsAreRows};

use node_model::Store;

/// A step of a take-in is rows of the seat whose turn it is, at the node of every hub that fits the store and whose
/// sessions look anew for what they offer. It does nothing.
pub fn take_ins_are_rows<S: Store>(old: &S, new: &S)
    ensures { TakeInsAreRows (S.stand old.now) (S.stand new.now) }
{}
