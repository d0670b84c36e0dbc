//! A session over a line that takes little of what is written to it, or nothing.
ghost use Rattle.std.specs.Prelude.{◌≡◌, ◌≤◌, ◌^◌, false, IfOk};
ghost use Rattle.binkp_args.specs.Limits.{AreAddresses};
ghost use Rattle.binkp_link.specs.MemLines.{mem_state};
ghost use Rattle.mail_conf.specs.ConfView.{conf_text};
ghost use Rattle.node_model.specs.Calls.{counts_of};
ghost use Rattle.session_run.specs.Courses.{MayTurn};

use crate::half::one_desk;
use crate::node::Node;
use crate::told::store_of;
use binkp_link::{Line, MemLine, ReadAct, WriteAct};
use ftn_addr::{Bytes, NoMemory};
use mail_conf::Conf;
use node_model::Desk;
use session_core::Side;
use session_run::{Course, Report, Turn};
use std::alloc::Global;

/// What a line takes of each write.
#[derive(Clone, Copy)]
pub enum Takes {
    OneByte,
    Nothing,
}

/// What came of a session over such a line: how many turns it made up to its end, the most bytes that were left to write behind one
/// of them, and what was told of it, where it came to its end.
#[derive(Drop)]
pub struct Slow {
    pub turns: u32,
    pub most: usize,
    pub report: Option<Report>,
}

/// A session of that node, which answers, over a line that takes so little. These bytes come over it at once, and nothing behind
/// them. It makes at most so many turns, and the node is as they leave it.
pub fn talk_slowly(
    alloc: Global,
    node: &mut Node,
    said: &[u8],
    takes: Takes,
    turns: u32,
) -> Result<Slow, NoMemory> {
    let Node { who, store } = node.lend(alloc)?;
    let mut desk = one_desk(alloc, store, who.hub_conf(alloc)?)?;
    let mut course = who.begin(alloc, Side::Answers)?;
    let mut line = slow_line(alloc, said, takes)?;
    let slow = walk(alloc, &mut course, &mut line, &who.conf, &mut *desk, turns);
    drop(course);
    let store = store_of(Box::into_inner(desk));
    *node = Node { who, store };
    Ok(slow)
}

// A line over which these bytes come at once, where there are any, and then nothing.
fn slow_line(alloc: Global, said: &[u8], takes: Takes) -> Result<MemLine, NoMemory>
    ensures { IfOk result (λ line. ((mem_state line).calm ≡ 0) × ((mem_state line).closed ≡ false)) }
{
    let mut reads = Vec::new(alloc);
    if !said.is_empty() {
        reads.push(ReadAct::Bytes(Bytes::from_slice(alloc, said)?))?;
    }
    reads.push(ReadAct::Quiet)?;
    let mut writes = Vec::new(alloc);
    match takes {
        Takes::OneByte => writes.push(WriteAct::Take(1))?,
        Takes::Nothing => writes.push(WriteAct::Quiet)?,
    }
    Ok(MemLine::new(alloc, reads, writes))
}

// At most so many turns of a session.
fn walk<L: Line, K: Desk>(
    alloc: Global,
    course: &mut Course,
    line: &mut L,
    conf: &Conf,
    desk: &mut K,
    turns: u32,
) -> Slow
    requires own { AreAddresses (conf_text conf.now).addresses }
    requires ready { K.ready desk.old }
    requires may { MayTurn (K.ready desk.old) (K.part desk.old) (counts_of (K.stand desk.old).state.knows).broken (L.state line.old).calm course.old.run course.old.going }
    requires limit { course.old.run.session.setting.limit ≤ 2 ^ 62 }
    requires open { (L.state line.old).closed ≡ false }
    ensures { K.ready desk.new }
{
    let mut most = 0;
    for made in 0..turns {
        match course.turn(alloc, line, conf, desk) {
            Turn::More => most = most.max(course.left()),
            Turn::Ended(report) => {
                return Slow {
                    turns: made,
                    most,
                    report: Some(report),
                };
            }
        }
    }
    Slow {
        turns,
        most,
        report: None,
    }
}
