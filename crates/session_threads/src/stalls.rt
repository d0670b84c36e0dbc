//! Places at which a test may hold a session.

use std::sync::Wait;

/// A place in a session's thread.
#[derive(Clone, Copy)]
pub enum StallPoint {
    /// Before its first turn.
    Start,
    /// Once it is logged in, and has left the gate.
    LoggedIn,
    /// Once its line is closed, and before the thread tells that it ended.
    End,
}

/// What each session calls at these places, with the place of its line. Nothing is said of it: a test waits there, so that several
/// sessions are open at once.
pub trait Stalls {
    fn at<W: Wait>(&self, rt: &W, line: u32, point: StallPoint);
}

/// It holds no session.
#[derive(Clone, Copy)]
pub struct NoStalls;

impl Stalls for NoStalls {
    fn at<W: Wait>(&self, _rt: &W, _line: u32, _point: StallPoint) {}
}
