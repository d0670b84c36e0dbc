//! The settings of the node, and the sides of a call.
ghost use Rattle.std.specs.Prelude.{◌<◌, ◌≤◌, IfOk};
ghost use Rattle.binkp_args.specs.Limits.{AreAddresses};
ghost use Rattle.mail_conf.specs.ConfView.{conf_text};

use crate::commands::home;
use anyhow::{Result, bail};
use ftn_addr::read_addr;
use mail_conf::{Conf, read_conf, what_is_read_keeps_limits};
use session_auth::Side;
use std::alloc::Global;
use test_script::word;

// The settings of a text.
fn conf_of(alloc: Global, text: &[u8]) -> Result<Conf>
    ensures own { IfOk result (λ conf. AreAddresses (conf_text conf).addresses) }
    ensures some { IfOk result (λ conf. 0 < (conf_text conf).block) }
    ensures fits { IfOk result (λ conf. (conf_text conf).block ≤ 32767) }
{
    what_is_read_keeps_limits();
    match read_conf(alloc, text) {
        Ok(conf) => Ok(conf),
        Err(fault) => Err(fault.into()),
    }
}

/// The settings of a text. They stand in a box, since each step of a function carries every field of what it holds itself.
pub fn settings_of(alloc: Global, text: &[u8]) -> Result<Box<Conf>>
    ensures own { IfOk result (λ conf. AreAddresses (conf_text conf.value).addresses) }
    ensures some { IfOk result (λ conf. 0 < (conf_text conf.value).block) }
    ensures fits { IfOk result (λ conf. (conf_text conf.value).block ≤ 32767) }
{
    Ok(Box::new(alloc, conf_of(alloc, text)?)?)
}

/// The side of these words: `answers`, or `calls` with the called address.
pub fn side_of(alloc: Global, words: &[&str]) -> Result<Side> {
    match word(words, 1) {
        "answers" => Ok(Side::Answers),
        "calls" => {
            let home = home(alloc)?;
            let called = read_addr(alloc, word(words, 2).as_bytes(), &home)?;
            Ok(Side::Calls(called))
        }
        _ => bail!("no such side"),
    }
}
