//! A session over a line that takes little, or nothing, and what it comes to.
use crate::phrases::said;
use crate::shown::{moved_text, report_text};
use crate::words::number;
use anyhow::{Result, bail};
use mem_talk::{Node, Slow, Takes, talk_slowly};
use std::alloc::Global;
use test_script::{behind, word, words_of};

fn slow_text(alloc: Global, slow: &Slow) -> Result<String> {
    let report = report_text(alloc, slow.report.as_ref())?;
    let moved = moved_text(alloc, slow.report.as_ref())?;
    let (turns, most) = (slow.turns, slow.most);
    Ok(format!(in alloc; "{turns} turns, at most {most} left; {report}; {moved}")?)
}

// The session of a node that answers these phrases, over a line that takes so little.
fn talk(
    alloc: Global,
    node: &mut Option<Node>,
    takes: Takes,
    line: &str,
    turns: u32,
) -> Result<String> {
    let Some(node) = node else { bail!("no node") };
    let own = said(alloc, behind(behind(line)), 0)?;
    let slow = talk_slowly(alloc, node, own.as_slice(), takes, turns)?;
    slow_text(alloc, &slow)
}

/// What the call of this line comes to, where nobody talks.
pub fn slow_call(alloc: Global, node: &mut Option<Node>, line: &str) -> Result<String> {
    let words = words_of(alloc, line)?;
    let turns = u32::try_from(number(words.as_slice(), 1, 0)?)?;
    match word(words.as_slice(), 0) {
        "slow" => talk(alloc, node, Takes::OneByte, line, turns),
        "deaf" => talk(alloc, node, Takes::Nothing, line, turns),
        _ => bail!("no such call"),
    }
}
