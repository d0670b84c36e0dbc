//! What is told while a node serves.
ghost use Rattle.std.specs.Prelude.{◌≡◌, ◌++◌, IfOk, OnOk};
ghost use Rattle.outbound_round.specs.Round.{told_of};
ghost use Rattle.session_lines.specs.Lines.{session_line};
ghost use Rattle.session_run.specs.Reports.{report_text};
ghost use Rattle.binkp_serve.specs.Telling.{Puts, TellsLine, TellsNews, fault_line, news_in};

use binkp_link::Sink;
use ftn_addr::{Bytes, NoMemory};
use outbound_round::{Round, RoundFault};
use session_lines::push_session;
use session_run::Report;
use std::alloc::Global;

// Puts a text. That a put failed is seen by the sink's count alone.
fn put<O: Sink>(text: &Bytes, out: &mut O)
    ensures { Puts text.now.list (O.state out.old) (O.state out.new) }
{
    match out.put(text.as_slice()) {
        Ok(()) => {}
        Err(_) => {}
    }
}

fn line_of(alloc: Global, report: &Report) -> Result<Bytes, NoMemory>
    ensures { IfOk result (λ line. line.list ≡ session_line (report_text report.now)) }
{
    let mut line = Bytes::new(alloc);
    push_session(alloc, report, &mut line)?;
    Ok(line)
}

/// Tells of a session that ended: its line.
pub(crate) fn tell_session<O: Sink>(alloc: Global, report: &Report, out: &mut O, short: &mut bool)
    ensures { TellsLine (session_line (report_text report.now)) (O.state out.old) short.old (O.state out.new) short.new }
{
    match line_of(alloc, report) {
        Ok(line) => put(&line, out),
        Err(NoMemory) => *short = true,
    }
}

// What is told of the fault that ended a take-in.
fn fault_line(fault: Option<RoundFault>) -> &'static [u8]
    ensures { result.now ≡ fault_line fault }
{
    match fault {
        Some(RoundFault::Full) => b"binkp: the ledger is full: mail stays in the outbound\n",
        Some(RoundFault::NoMemory) => b"binkp: out of memory: mail stays in the outbound\n",
        Some(RoundFault::Disk) => b"",
        None => b"",
    }
}

fn news_in(round: Round) -> Result<Bytes, NoMemory>
    ensures { IfOk result (λ news. news.list ≡ news_in (told_of round)) }
{
    let Round { lines, fault, .. } = round;
    let mut news = lines;
    news.push_slice(fault_line(fault))?;
    Ok(news)
}

/// Tells of a take-in what there is to tell, where that isn't what was said of the last one.
pub(crate) fn tell_news<O: Sink>(round: Round, said: &mut Bytes, out: &mut O, short: &mut bool)
    ensures { TellsNews (news_in (told_of round)) said.old.list (O.state out.old) short.old said.new.list (O.state out.new) short.new }
{
    match news_in(round) {
        Ok(news) => {
            if news.as_slice() != said.as_slice() {
                put(&news, out);
                *said = news;
            }
        }
        Err(NoMemory) => *short = true,
    }
}
