ghost use Rattle.std.specs.Prelude.{IfSome};
ghost use Rattle.mail_conf.specs.ConfView.{conf_text};
ghost use Rattle.mail_conf.specs.Limits.{KeepsLimits};
ghost use Rattle.test_threads.specs.Serving.{IsNewLine};

use binkp_link::{MemLine, ReadAct};
use ftn_addr::Bytes;
use mail_conf::{Conf, read_conf, what_is_read_keeps_limits};
use mem_talk::{Offered, Word, bytes_of};
use std::alloc::Global;

// The settings of the node that answers.
pub fn settings(alloc: Global) -> Option<Box<Conf>>
    ensures { IfSome result (λ conf. KeepsLimits (conf_text conf.value)) }
{
    settings_of(alloc, b"address 2:5020/1@fidonet\n")
}

fn settings_of(alloc: Global, text: &[u8]) -> Option<Box<Conf>>
    ensures { IfSome result (λ conf. KeepsLimits (conf_text conf.value)) }
{
    match read_conf(alloc, text) {
        Ok(conf) => {
            what_is_read_keeps_limits();
            boxed(alloc, conf)
        }
        Err(_) => None,
    }
}

fn boxed(alloc: Global, conf: Conf) -> Option<Box<Conf>>
    requires { KeepsLimits (conf_text conf) }
    ensures { IfSome result (λ conf. KeepsLimits (conf_text conf.value)) }
{
    match Box::new(alloc, conf) {
        Ok(conf) => Some(conf),
        Err(_) => None,
    }
}

// A line on which these bytes come, where there are some, and no more for a while.
fn line_of(alloc: Global, bytes: Bytes) -> Option<MemLine>
    ensures { IfSome result IsNewLine }
{
    if bytes.is_empty() {
        return None;
    }
    let mut reads = Vec::new(alloc);
    reads.push(ReadAct::Bytes(bytes)).ok()?;
    reads.push(ReadAct::NotYet).ok()?;
    Some(MemLine::new(alloc, reads, Vec::new(alloc)))
}

// The line of the node of that number, which calls, sends a file, and has no more to say.
pub fn caller(alloc: Global, node: u16, file: Offered) -> Option<MemLine>
    ensures { IfSome result IsNewLine }
{
    let words = [
        Word::Login(node),
        Word::File(file, 0),
        Word::Block(file, 0),
        Word::End,
    ];
    let bytes = bytes_of(alloc, &words).ok()?;
    line_of(alloc, bytes)
}
