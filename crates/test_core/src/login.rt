//! A login, with what it has said.
ghost use Rattle.binkp_args.specs.Limits.{AreAddresses};
ghost use Rattle.mail_conf.specs.ConfView.{conf_text};

use crate::answers::{named, with_written};
use crate::commands::command_of;
use anyhow::Result;
use ftn_addr::{Addr, Bytes, NoMemory, write_addr};
use mail_conf::Conf;
use session_auth::{Auth, AuthStep, Login, Side};
use std::alloc::Global;
use test_script::shown;

/// The challenge of the example of FTS-1027.
pub const CHALLENGE: [u8; 16] = [
    0xf0, 0x31, 0x5b, 0x07, 0x4d, 0x72, 0x8d, 0x48, 0x3d, 0x68, 0x87, 0xd0, 0x18, 0x2f, 0xc3, 0x28,
];

#[derive(Drop)]
pub struct LoginRig {
    auth: Auth,
    conf: Box<Conf>,
    out: Bytes,
}

/// Addresses, with a blank between them.
pub fn addresses(alloc: Global, addrs: &[Addr]) -> Result<String, NoMemory> {
    let mut text = Bytes::new(alloc);
    for addr in addrs {
        if !text.is_empty() {
            text.push_slice(b" ")?;
        }
        write_addr(alloc, addr, &mut text)?;
    }
    shown(alloc, text.as_slice())
}

fn in_text(alloc: Global, login: &Login) -> Result<String> {
    let peers = addresses(alloc, login.peers.as_slice())?;
    let kind = if login.secure { "secure" } else { "non-secure" };
    Ok(format!(in alloc; "In {peers}, {kind}")?)
}

fn step_text(alloc: Global, step: &AuthStep) -> Result<String> {
    match step {
        AuthStep::In(login) => in_text(alloc, login),
        AuthStep::BadPassword(wanted, given) => named(alloc, "BadPassword", &[wanted, given]),
        AuthStep::PeerError(said) => named(alloc, "PeerError", &[said]),
        step => Ok(format!(in alloc; "{step:?}")?),
    }
}

impl LoginRig {
    /// A login that greeted.
    pub fn new(alloc: Global, side: Side, conf: Box<Conf>, now: u64) -> Result<Box<LoginRig>>
        requires { AreAddresses (conf_text conf.value).addresses }
    {
        let mut out = Bytes::new(alloc);
        let auth = Auth::start(alloc, side, &conf, CHALLENGE, now, &mut out)?;
        Ok(Box::new(alloc, LoginRig { auth, conf, out })?)
    }

    // What the login does at a command of the peer's.
    fn hear(&mut self, alloc: Global, line: &str) -> Result<String> {
        let command = command_of(alloc, line)?;
        self.out.clear();
        let step = self.auth.take(alloc, command, &self.conf, &mut self.out)?;
        step_text(alloc, &step)
    }

    /// What the call of a line answers, and what is said.
    pub fn call(&mut self, alloc: Global, line: &str) -> Result<String> {
        if line == "greeting" {
            return with_written(alloc, "said", &mut self.out);
        }
        let step = self.hear(alloc, line)?;
        with_written(alloc, step.as_str(), &mut self.out)
    }
}
