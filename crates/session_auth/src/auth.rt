//! A login, from the greeting to the peer's password or its word.
ghost use Rattle.std.specs.Prelude.{◌≡◌, ◌+◌, ◌≤◌, ◌++◌, length, map, filter, codes, IfOk, OnOk, OnErr};
ghost use Rattle.binkp_args.specs.Command.{command_text, Error};
ghost use Rattle.binkp_args.specs.Limits.{AreAddresses, HasAddresses};
ghost use Rattle.cram_md5.specs.Answer.{answer};
ghost use Rattle.cram_md5.specs.Views.{offered};
ghost use Rattle.ftn_addr.specs.Address.{address};
ghost use Rattle.mail_conf.specs.ConfView.{conf_text};
ghost use Rattle.session_auth.specs.Login.{Bad_password, breaks, enters, says};
ghost use Rattle.session_auth.specs.Passwords.{shares, wanted_password};
ghost use Rattle.session_auth.specs.Views.{Takes};

use crate::greeting::say_greeting;
use crate::passwords::{
    is_among, later_offer, password_for, sharers, spoken_password, wanted_password, without_own,
};
use crate::saying::{say_accepted, say_error, say_fault, say_password};
use crate::stage::{Peers, Stage};
use crate::{AuthStep, Login, LoginFault, Side};
use binkp_args::Command;
use cram_md5::{Offer, answer_text, check};
use ftn_addr::{Addr, Bytes, NoMemory};
use mail_conf::Conf;
use std::alloc::Global;
use std::mem;

/// A login: its side, the challenge that it offered, and where it stands.
#[derive(Debug, Drop)]
pub struct Auth {
    side: Side,
    challenge: [u8; 16],
    stage: Stage,
}

impl Auth {
    ghost use Rattle.session_auth.specs.Greeting.{greeting};
    ghost use Rattle.session_auth.specs.Login.{before_address, before_password, before_word, early_password, early_word, judged, met, named, reply_to};
    ghost use Rattle.session_auth.specs.Passwords.{without_own};
    ghost use Rattle.session_auth.specs.Says.{said_bytes};
    ghost use Rattle.session_auth.specs.Sides.{side_of};
    ghost use Rattle.session_auth.specs.Views.{Begins, Keeps, stage_of, terms_of};

    /// Before the greeting. The challenge is offered at the answering side alone. This takes no memory.
    pub fn new(side: Side, challenge: [u8; 16]) -> Auth
        ensures { Begins side challenge result }
    {
        Auth {
            side,
            challenge,
            stage: Stage::AwaitsAddress(Offer::Absent),
        }
    }

    /// Its side.
    pub fn side(&self) -> &Side
        ensures { side_of result.now ≡ side_of self.now.side }
    {
        &self.side
    }

    /// Says the greeting at the end of `out`, in 40,000 bytes at the most, at a moment in seconds since 1970. The settings have
    /// an own address.
    ///
    /// # Errors
    /// `NoMemory`: `out` holds what it held.
    pub fn greet(
        &self,
        alloc: Global,
        conf: &Conf,
        now: u64,
        out: &mut Bytes,
    ) -> Result<(), NoMemory>
        requires { AreAddresses (conf_text conf.now).addresses }
        ensures said { OnOk result (out.new.list ≡ out.old.list ++ said_bytes (greeting (side_of self.now.side) (conf_text conf.now) self.now.challenge now)) }
        ensures err { OnErr result (out.new.list ≡ out.old.list) }
        ensures short { OnOk result (length out.new.list ≤ length out.old.list + 40000) }
    {
        let mut text = Bytes::new(alloc);
        say_greeting(alloc, &self.side, conf, &self.challenge, now, &mut text)?;
        out.push_slice(text.as_slice())
    }

    /// A login whose greeting stands at the end of `out`.
    ///
    /// # Errors
    /// `NoMemory`: `out` holds what it held.
    pub fn start(
        alloc: Global,
        side: Side,
        conf: &Conf,
        challenge: [u8; 16],
        now: u64,
        out: &mut Bytes,
    ) -> Result<Auth, NoMemory>
        requires { AreAddresses (conf_text conf.now).addresses }
        ensures said { OnOk result (out.new.list ≡ out.old.list ++ said_bytes (greeting (side_of side) (conf_text conf.now) challenge now)) }
        ensures begins { IfOk result (λ auth. Begins side challenge auth) }
        ensures err { OnErr result (out.new.list ≡ out.old.list) }
    {
        let auth = Auth::new(side, challenge);
        auth.greet(alloc, conf, now, out)?;
        Ok(auth)
    }

    /// Takes the next command of the peer's, and adds what is said to `out`. After an end or an error the login isn't used any more.
    ///
    /// # Errors
    /// `NoMemory`: `out` holds what it held.
    pub fn take(
        &mut self,
        alloc: Global,
        command: Command,
        conf: &Conf,
        out: &mut Bytes,
    ) -> Result<AuthStep, NoMemory>
        requires { HasAddresses (command_text command) }
        ensures takes { Takes (reply_to (terms_of self.old (conf_text conf.now)) (stage_of self.old.stage) (command_text command)) out.old.list out.new.list self.new result }
        ensures keeps { Keeps self.old self.new }
    {
        match mem::replace(&mut self.stage, Stage::AwaitsAddress(Offer::Absent)) {
            Stage::AwaitsAddress(offer) => {
                self.take_before_address(alloc, offer, command, conf, out)
            }
            Stage::AwaitsPassword(peers) => {
                self.take_before_password(alloc, peers, command, conf, out)
            }
            Stage::AwaitsWord(peers, secure) => {
                self.take_before_word(alloc, peers, secure, command, out)
            }
        }
    }

    /// The login goes on, at that stage.
    fn goes_on(&mut self, stage: Stage) -> AuthStep
        ensures more { result ≡ AuthStep.More }
        ensures stage { self.new.stage ≡ stage }
        ensures keeps { Keeps self.old self.new }
    {
        self.stage = stage;
        AuthStep::More
    }

    /// Refuses a command, with the M_ERR that this owes.
    fn refuse(
        &self,
        alloc: Global,
        fault: LoginFault,
        out: &mut Bytes,
    ) -> Result<AuthStep, NoMemory>
        ensures { Takes (breaks fault) out.old.list out.new.list self.now result }
    {
        say_fault(alloc, fault, out)?;
        Ok(AuthStep::Broke(fault))
    }

    /// A command before the peer's addresses.
    fn take_before_address(
        &mut self,
        alloc: Global,
        offer: Offer,
        command: Command,
        conf: &Conf,
        out: &mut Bytes,
    ) -> Result<AuthStep, NoMemory>
        requires { HasAddresses (command_text command) }
        ensures takes { Takes (before_address (terms_of self.old (conf_text conf.now)) (offered offer) (command_text command)) out.old.list out.new.list self.new result }
        ensures keeps { Keeps self.old self.new }
    {
        match command {
            Command::Nul(text) => {
                let later = later_offer(alloc, offer, text.as_slice())?;
                Ok(self.goes_on(Stage::AwaitsAddress(later)))
            }
            Command::Adr(addresses) => self.take_addresses(alloc, offer, addresses, conf, out),
            Command::Pwd(_) => self.take_early_password(alloc, offer, out),
            Command::Accept(_) => self.take_early_word(alloc, offer, out),
            Command::Err(text) => Ok(AuthStep::PeerError(text)),
            Command::Bsy(_) => Ok(AuthStep::PeerBusy),
            Command::Other(_) => Ok(self.goes_on(Stage::AwaitsAddress(offer))),
            Command::File(_, _) => self.refuse(alloc, LoginFault::OutOfTurn, out),
            Command::Eob => self.refuse(alloc, LoginFault::OutOfTurn, out),
            Command::Got(_) => self.refuse(alloc, LoginFault::OutOfTurn, out),
            Command::Get(_, _) => self.refuse(alloc, LoginFault::OutOfTurn, out),
            Command::Skip(_) => self.refuse(alloc, LoginFault::OutOfTurn, out),
        }
    }

    /// The peer's addresses come.
    fn take_addresses(
        &mut self,
        alloc: Global,
        offer: Offer,
        addresses: Vec<Addr>,
        conf: &Conf,
        out: &mut Bytes,
    ) -> Result<AuthStep, NoMemory>
        requires { AreAddresses (map address addresses.items) }
        ensures takes { Takes (named (terms_of self.old (conf_text conf.now)) (offered offer) (without_own (conf_text conf.now).addresses (map address addresses.items))) out.old.list out.new.list self.new result }
        ensures keeps { Keeps self.old self.new }
    {
        let others = without_own(alloc, conf.addresses.as_slice(), addresses)?;
        if others.is_empty() {
            return self.refuse(alloc, LoginFault::NoAddress, out);
        }
        self.meet(alloc, offer, Peers { addresses: others }, conf, out)
    }

    /// The peer has these addresses. The calling side wants the called one among them, and says its password.
    fn meet(
        &mut self,
        alloc: Global,
        offer: Offer,
        peers: Peers,
        conf: &Conf,
        out: &mut Bytes,
    ) -> Result<AuthStep, NoMemory>
        ensures takes { Takes (met (terms_of self.old (conf_text conf.now)) (side_of self.old.side) (offered offer) (map address peers.addresses.items)) out.old.list out.new.list self.new result }
        ensures keeps { Keeps self.old self.new }
    {
        match &self.side {
            Side::Answers => Ok(self.goes_on(Stage::AwaitsPassword(peers))),
            Side::Calls(called) => {
                if !is_among(called, peers.addresses.as_slice()) {
                    return self.refuse(alloc, LoginFault::NotCalled, out);
                }
                let password = password_for(conf, called);
                let text = spoken_password(alloc, password, &offer)?;
                say_password(alloc, text, out)?;
                Ok(self.goes_on(Stage::AwaitsWord(peers, !password.is_empty())))
            }
        }
    }

    /// M_PWD before M_ADR.
    fn take_early_password(
        &mut self,
        alloc: Global,
        offer: Offer,
        out: &mut Bytes,
    ) -> Result<AuthStep, NoMemory>
        ensures takes { Takes (early_password (side_of self.old.side) (offered offer)) out.old.list out.new.list self.new result }
        ensures keeps { Keeps self.old self.new }
    {
        match &self.side {
            Side::Answers => self.refuse(alloc, LoginFault::OutOfTurn, out),
            Side::Calls(_) => Ok(self.goes_on(Stage::AwaitsAddress(offer))),
        }
    }

    /// M_OK before the own password.
    fn take_early_word(
        &mut self,
        alloc: Global,
        offer: Offer,
        out: &mut Bytes,
    ) -> Result<AuthStep, NoMemory>
        ensures takes { Takes (early_word (side_of self.old.side) (offered offer)) out.old.list out.new.list self.new result }
        ensures keeps { Keeps self.old self.new }
    {
        match &self.side {
            Side::Answers => Ok(self.goes_on(Stage::AwaitsAddress(offer))),
            Side::Calls(_) => self.refuse(alloc, LoginFault::OutOfTurn, out),
        }
    }

    /// A command before the caller's password.
    fn take_before_password(
        &mut self,
        alloc: Global,
        peers: Peers,
        command: Command,
        conf: &Conf,
        out: &mut Bytes,
    ) -> Result<AuthStep, NoMemory>
        ensures takes { Takes (before_password (terms_of self.old (conf_text conf.now)) (map address peers.addresses.items) (command_text command)) out.old.list out.new.list self.new result }
        ensures keeps { Keeps self.old self.new }
    {
        match command {
            Command::Pwd(text) => self.judge(alloc, peers, text, conf, out),
            Command::Err(text) => Ok(AuthStep::PeerError(text)),
            Command::Bsy(_) => Ok(AuthStep::PeerBusy),
            Command::Nul(_) => Ok(self.goes_on(Stage::AwaitsPassword(peers))),
            Command::Adr(_) => Ok(self.goes_on(Stage::AwaitsPassword(peers))),
            Command::Accept(_) => Ok(self.goes_on(Stage::AwaitsPassword(peers))),
            Command::Other(_) => Ok(self.goes_on(Stage::AwaitsPassword(peers))),
            Command::File(_, _) => self.refuse(alloc, LoginFault::OutOfTurn, out),
            Command::Eob => self.refuse(alloc, LoginFault::OutOfTurn, out),
            Command::Got(_) => self.refuse(alloc, LoginFault::OutOfTurn, out),
            Command::Get(_, _) => self.refuse(alloc, LoginFault::OutOfTurn, out),
            Command::Skip(_) => self.refuse(alloc, LoginFault::OutOfTurn, out),
        }
    }

    /// M_PWD at the answering side.
    fn judge(
        &self,
        alloc: Global,
        peers: Peers,
        given: Bytes,
        conf: &Conf,
        out: &mut Bytes,
    ) -> Result<AuthStep, NoMemory>
        ensures { Takes (judged (terms_of self.now (conf_text conf.now)) (map address peers.addresses.items) given.list (wanted_password (conf_text conf.now) (map address peers.addresses.items))) out.old.list out.new.list self.now result }
    {
        match wanted_password(conf, peers.addresses.as_slice()) {
            None => self.enter(alloc, peers, false, out),
            Some(password) => {
                if check(password, &self.challenge, given.as_slice()) {
                    self.enter(
                        alloc,
                        with_password(alloc, peers, password, conf)?,
                        true,
                        out,
                    )
                } else {
                    self.refuse_password(alloc, password, given, out)
                }
            }
        }
    }

    /// M_OK at the answering side: the peer is in.
    fn enter(
        &self,
        alloc: Global,
        peers: Peers,
        secure: bool,
        out: &mut Bytes,
    ) -> Result<AuthStep, NoMemory>
        ensures { Takes (enters (map address peers.addresses.items) secure) out.old.list out.new.list self.now result }
    {
        let text: &[u8] = if secure { b"secure" } else { b"non-secure" };
        say_accepted(alloc, text, out)?;
        Ok(AuthStep::In(Login {
            peers: peers.addresses,
            secure,
        }))
    }

    /// M_ERR for a password that isn't the right one.
    fn refuse_password(
        &self,
        alloc: Global,
        password: &[u8],
        given: Bytes,
        out: &mut Bytes,
    ) -> Result<AuthStep, NoMemory>
        ensures { Takes (says (Error (codes "bad password")) (Bad_password (answer password.now self.now.challenge) given.list)) out.old.list out.new.list self.now result }
    {
        let mut wanted = Bytes::new(alloc);
        answer_text(alloc, password, &self.challenge, &mut wanted)?;
        say_error(alloc, b"bad password", out)?;
        Ok(AuthStep::BadPassword(wanted, given))
    }

    /// A command before the word that the own password is accepted.
    fn take_before_word(
        &mut self,
        alloc: Global,
        peers: Peers,
        secure: bool,
        command: Command,
        out: &mut Bytes,
    ) -> Result<AuthStep, NoMemory>
        ensures takes { Takes (before_word (map address peers.addresses.items) secure (command_text command)) out.old.list out.new.list self.new result }
        ensures keeps { Keeps self.old self.new }
    {
        match command {
            Command::Accept(_) => Ok(AuthStep::In(Login {
                peers: peers.addresses,
                secure,
            })),
            Command::Err(text) => Ok(AuthStep::PeerError(text)),
            Command::Bsy(_) => Ok(AuthStep::PeerBusy),
            Command::Nul(_) => Ok(self.goes_on(Stage::AwaitsWord(peers, secure))),
            Command::Adr(_) => Ok(self.goes_on(Stage::AwaitsWord(peers, secure))),
            Command::Pwd(_) => Ok(self.goes_on(Stage::AwaitsWord(peers, secure))),
            Command::Other(_) => Ok(self.goes_on(Stage::AwaitsWord(peers, secure))),
            Command::File(_, _) => self.refuse(alloc, LoginFault::OutOfTurn, out),
            Command::Eob => self.refuse(alloc, LoginFault::OutOfTurn, out),
            Command::Got(_) => self.refuse(alloc, LoginFault::OutOfTurn, out),
            Command::Get(_, _) => self.refuse(alloc, LoginFault::OutOfTurn, out),
            Command::Skip(_) => self.refuse(alloc, LoginFault::OutOfTurn, out),
        }
    }
}

/// Those that have that password, or none: the first one that has any is among them.
fn with_password(
    alloc: Global,
    peers: Peers,
    password: &[u8],
    conf: &Conf,
) -> Result<Peers, NoMemory>
    requires { Some password.now ≡ wanted_password (conf_text conf.now) (map address peers.addresses.items) }
    ensures { IfOk result (λ sharing. map address sharing.addresses.items ≡ filter (shares (conf_text conf.now) password.now) (map address peers.addresses.items)) }
{
    Ok(Peers {
        addresses: sharers(alloc, conf, password, peers.addresses)?,
    })
}
