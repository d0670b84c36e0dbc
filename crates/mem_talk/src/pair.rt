//! Two nodes, and the calls between them.

use crate::came::Came;
use crate::crossed::{cross, cross_and_cut};
use crate::crossing::Post;
use crate::half::Half;
use crate::kept::{has_each, kept_of, live};
use crate::leg::Plan;
use crate::node::Node;
use crate::offered::Offered;
use crate::talking::talk;
use ftn_addr::NoMemory;
use mem_store::ListStore;
use node_model::StoreFault;
use session_core::Side;
use session_run::Report;
use std::alloc::Global;
use std::marker::Model;

/// Two nodes that no session uses, and what came of the last call between them.
#[derive(Drop)]
pub struct Pair {
    near: Node,
    far: Node,
    ends: Option<Box<Ends>>,
}

impl Model for Pair {
    ghost use Rattle.mem_store.specs.ListStates.{ListState};

    ghost Value = { ListState };

    ghost view = { λ p. p.near };
}

// What came of a session: at the node that called, and at the one that was called.
#[derive(Drop)]
struct Ends {
    called: Report,
    answered: Report,
}

/// Whether the first of two sessions is cut.
#[derive(Clone, Copy)]
pub enum Cut {
    Neither,
    First,
}

impl Pair {
    /// Two nodes that didn't call one another yet.
    pub fn new(near: Node, far: Node) -> Pair {
        Pair {
            near,
            far,
            ends: None,
        }
    }

    /// Queues these files more at the near node, for the node of that number.
    pub fn queue_near(
        &mut self,
        alloc: Global,
        dest: u16,
        files: &[Offered],
    ) -> Result<(), StoreFault> {
        self.near.queue(alloc, dest, files)
    }

    /// The same at the far node.
    pub fn queue_far(
        &mut self,
        alloc: Global,
        dest: u16,
        files: &[Offered],
    ) -> Result<(), StoreFault> {
        self.far.queue(alloc, dest, files)
    }

    /// The far node has that address instead, and no other settings.
    pub fn rename_far(&mut self, alloc: Global, number: u16) -> Result<(), NoMemory> {
        self.far.rename(alloc, number)
    }

    /// The near node calls the far one, and the line is cut behind so many bytes. Whether both sessions ended: otherwise they
    /// go on for ever.
    pub fn call(&mut self, alloc: Global, most: u64) -> Result<bool, NoMemory> {
        self.ends = call(alloc, &mut self.near, &mut self.far, most)?;
        Ok(self.ends.is_some())
    }

    /// What is told of the last call at the near node, where that ended at both.
    pub fn called(&self) -> Option<&Report> {
        match &self.ends {
            Some(ends) => Some(&ends.called),
            None => None,
        }
    }

    /// The same at the far node.
    pub fn answered(&self) -> Option<&Report> {
        match &self.ends {
            Some(ends) => Some(&ends.answered),
            None => None,
        }
    }

    /// Whether each node has received these files of the other, each once and whole, and no others.
    pub fn has_each(
        &self,
        alloc: Global,
        at_near: &[Offered],
        at_far: &[Offered],
    ) -> Result<bool, NoMemory> {
        let near_has = has_each(alloc, &self.near.store, self.far.home(), at_near)?;
        let far_has = has_each(alloc, &self.far.store, self.near.home(), at_far)?;
        Ok(near_has && far_has)
    }

    /// The same of the far node alone.
    pub fn far_has_each(&self, alloc: Global, files: &[Offered]) -> Result<bool, NoMemory> {
        has_each(alloc, &self.far.store, self.near.home(), files)
    }

    /// How many bytes of that file of the near node the far one keeps, where that isn't whole.
    pub fn far_keeps(&self, alloc: Global, file: Offered) -> Result<u64, NoMemory> {
        kept_of(alloc, &self.far.store, self.near.home(), file)
    }

    /// How many files each node has left to send.
    pub fn live(&self) -> [usize; 2] {
        [live(&self.near.store), live(&self.far.store)]
    }

    /// How many files each node has received.
    pub fn received(&self) -> [usize; 2] {
        [
            self.near.store.receipts().len(),
            self.far.store.receipts().len(),
        ]
    }

    /// How many files each node has refused.
    pub fn refused(&self) -> [usize; 2] {
        [
            self.near.store.refusals().len(),
            self.far.store.refusals().len(),
        ]
    }

    /// What the far node keeps.
    pub fn far_store(&self) -> &ListStore {
        self.far.store()
    }

    /// Whether each node has one receipt, of a secure session.
    pub fn is_secure(&self) -> [bool; 2] {
        [
            has_a_secure_file(&self.near.store),
            has_a_secure_file(&self.far.store),
        ]
    }

    /// Lets both nodes hold two sessions with one another, as these plans say, of which the first may be cut. What came of
    /// them, at the near node and at the far one.
    pub fn cross(
        &mut self,
        alloc: Global,
        near: [Plan; 2],
        far: [Plan; 2],
        cut: Cut,
    ) -> Result<[[Option<Came>; 2]; 2], NoMemory> {
        let mut post = begin_both(alloc, &mut self.near, near)?;
        let at_far = cross_with(alloc, &mut post, &mut self.far, far, cut);
        let at_near = post.came();
        self.near = post.into_node();
        Ok([at_near, at_far?])
    }
}

// Whether it has one receipt, of a secure session.
fn has_a_secure_file(store: &ListStore) -> bool {
    match store.receipts() {
        [receipt] => receipt.secure,
        _ => false,
    }
}

// A session of a node, which is a blank one until that is over.
fn begin(alloc: Global, node: &mut Node, side: Side) -> Result<Half, NoMemory> {
    Half::new(alloc, node.lend(alloc)?, side)
}

// Gives a node back, and tells what came of its session; none where that isn't over.
fn end(half: Half, node: &mut Node) -> Option<Report> {
    let (report, left) = half.leave();
    *node = left;
    report
}

// A node answers a session, and the line between them is cut behind so many bytes.
fn answer(
    alloc: Global,
    calling: &mut Half,
    far: &mut Node,
    most: u64,
) -> Result<Option<Report>, NoMemory> {
    let mut answering = begin(alloc, far, Side::Answers)?;
    let talked = talk(alloc, calling, &mut answering, most);
    let report = end(answering, far);
    talked?;
    Ok(report)
}

fn both(
    alloc: Global,
    called: Option<Report>,
    answered: Option<Report>,
) -> Result<Option<Box<Ends>>, NoMemory> {
    let Some(called) = called else {
        return Ok(None);
    };
    let Some(answered) = answered else {
        return Ok(None);
    };
    Ok(Some(Box::new(alloc, Ends { called, answered })?))
}

// The first node calls the second, and the line is cut behind so many bytes. None where they go on for ever.
fn call(
    alloc: Global,
    near: &mut Node,
    far: &mut Node,
    most: u64,
) -> Result<Option<Box<Ends>>, NoMemory> {
    let side = Side::Calls(far.home().copy(alloc)?);
    let mut calling = begin(alloc, near, side)?;
    let answered = answer(alloc, &mut calling, far, most);
    let called = end(calling, near);
    both(alloc, called, answered?)
}

// A node that holds these two sessions, and is a blank one meanwhile.
fn begin_both(alloc: Global, node: &mut Node, plans: [Plan; 2]) -> Result<Post, NoMemory> {
    let [first, second] = plans;
    Post::new(alloc, node.lend(alloc)?, first, second)
}

fn cross_posts(alloc: Global, near: &mut Post, far: &mut Post, cut: Cut) -> Result<(), NoMemory> {
    match cut {
        Cut::Neither => cross(alloc, near, far),
        Cut::First => cross_and_cut(alloc, near, far),
    }
}

fn cross_with(
    alloc: Global,
    near: &mut Post,
    far: &mut Node,
    plans: [Plan; 2],
    cut: Cut,
) -> Result<[Option<Came>; 2], NoMemory> {
    let mut post = begin_both(alloc, far, plans)?;
    let crossed = cross_posts(alloc, near, &mut post, cut);
    let came = post.came();
    *far = post.into_node();
    crossed?;
    Ok(came)
}
