//! The lines of the system: those of callers, of dials, and that of the standard streams.
ghost use Rattle.std.specs.Prelude.{◌≡◌, IfOk, IfSome};
ghost use Rattle.std.specs.Option.{ForSome};
ghost use Rattle.binkp_link.specs.Tallies.{nothing_counted};
ghost use Rattle.real_edge.specs.SystemLines.{ComesUnused, none_counted, system_lines};
ghost use Rattle.real_edge.specs.WaitingLines.{system_line};

use crate::dialling::reach;
use crate::line_streams::{SystemLine, socket_line};
use crate::poller::Poller;
use crate::waits::Waits;
use binkp_link::{Dialled, LineCounts, Lines, NextLine};
use ftn_addr::{Bytes, Failed};
use std::io::{Eprint, ErrorKind, Read, Write};
use std::net::{Ipv4Addr, Ipv6Addr, Net, OpenListener, SocketAddr, TcpListener};
use std::os::fd::AsRawFd;
use std::rt::{Clock, Files};
use std::time::Duration;
use std::{fs, io, str};

/// A listener, and what waits for it.
#[derive(Drop)]
struct Listening<L> {
    listener: L,
    waits: Poller,
}

// The socket of a caller who waits, where one does. A call that its caller broke off meanwhile is none.
fn accepted<L: OpenListener>(listener: &L) -> io::Result<Option<L::Stream>> {
    match listener.accept() {
        Ok((socket, _)) => Ok(Some(socket)),
        Err(error) if is_nobody(error.kind()) => Ok(None),
        Err(error) => Err(error),
    }
}

fn is_nobody(kind: ErrorKind) -> bool {
    matches!(
        kind,
        ErrorKind::WouldBlock | ErrorKind::Interrupted | ErrorKind::ConnectionAborted
    )
}

impl<L: OpenListener> Listening<L> {
    // The socket of a caller who comes in time.
    fn later(&mut self, patience: Duration) -> io::Result<Option<L::Stream>> {
        if self.waits.for_input(patience)? {
            accepted(&self.listener)
        } else {
            Ok(None)
        }
    }
}

/// The lines of the system. They tell nothing of their bytes.
///
/// Once it listens, callers come from its port, until the stop file stands, which it takes away; before, the standard streams are the
/// one line that comes, where it has them. Each failure is told on standard error, with its reason.
#[derive(Drop)]
pub struct SystemLines<R: Net, I, O> {
    runtime: R,
    standard: Option<SystemLine<R::Stream, I, O>>,
    listening: Option<Listening<R::Listener>>,
    stop_file: String,
    patience: Duration,
    counts: LineCounts,
    ghost unused: { ForSome standard (λ line. line.tally ≡ nothing_counted) },
}

impl<R: Net + Files + Clock + Eprint + AllocGlobal, I: Read + Drop, O: Write + Drop> SystemLines<
    R,
    I,
    O,
> {
    /// The lines of a runtime: that of the standard streams, until they listen; none until then where there is no such line, as in a
    /// program that dials alone. The stop file is that of a path. Once they listen, `next` waits for a caller for as long as the patience
    /// is.
    pub fn new(
        runtime: R,
        standard: Option<SystemLine<R::Stream, I, O>>,
        stop_file: String,
        patience: Duration,
    ) -> SystemLines<R, I, O>
        requires { ForSome standard (λ line. line.tally ≡ nothing_counted) }
        ensures { system_lines result.counts ≡ system_lines none_counted }
    {
        SystemLines {
            runtime,
            standard,
            listening: None,
            stop_file,
            patience,
            counts: LineCounts {
                faults: 0,
                misses: 0,
                nothings: 0,
                stops: 0,
                given: 0,
            },
        }
    }

    /// The port that they listen on.
    pub fn port(&self) -> Option<u16> {
        let listening = self.listening.as_ref()?;
        let address = listening.listener.local_addr().ok()?;
        Some(address.port())
    }

    // Listens on a port of all addresses of the machine, of both versions where it has both.
    fn listen_on(&self, port: u16) -> io::Result<Listening<R::Listener>> {
        let all = [
            SocketAddr::from((Ipv6Addr::UNSPECIFIED, port)),
            SocketAddr::from((Ipv4Addr::UNSPECIFIED, port)),
        ];
        let listener = TcpListener::bind(&self.runtime, all.as_slice())?;
        listener.set_nonblocking(true)?;
        let waits = Poller::of_socket(&self.runtime, self.runtime.alloc(), listener.as_raw_fd())?;
        Ok(Listening { listener, waits })
    }

    // Whether the stop file stood, which is gone then. One that can't be taken away stands too, and that is told.
    fn is_stopped(&self) -> bool {
        let path = self.stop_file.as_str();
        match fs::remove_file(&self.runtime, path) {
            Ok(()) => true,
            Err(error) if error.kind() == ErrorKind::NotFound => false,
            Err(error) => {
                let _ = eprintln!(self.runtime;
                    "binkp: the stop file {path} can't be taken away: {error}"
                );
                true
            }
        }
    }

    // The line of a caller who waits already, of one who comes in time, or none.
    fn caller(&mut self) -> io::Result<Option<SystemLine<R::Stream, I, O>>>
        ensures line { IfOk result (λ caller. IfSome caller (λ line. line.tally ≡ nothing_counted)) }
        ensures counts { self.new.counts ≡ self.old.counts }
        ensures standard { self.new.standard ≡ self.old.standard }
    {
        let Some(listening) = &mut self.listening else {
            return Ok(None);
        };
        let socket = match accepted(&listening.listener)? {
            Some(socket) => Some(socket),
            None => listening.later(self.patience)?,
        };
        match socket {
            Some(socket) => Ok(Some(socket_line(&self.runtime, socket)?)),
            None => Ok(None),
        }
    }

    // What the next line is, before it is counted.
    fn answer(&mut self) -> NextLine<SystemLine<R::Stream, I, O>>
        ensures line { ComesUnused (λ line. system_line line.tally) result }
        ensures counts { self.new.counts ≡ self.old.counts }
    {
        if self.listening.is_none() {
            return match self.standard.take() {
                Some(line) => NextLine::Came(line),
                None => NextLine::Stop,
            };
        }
        if self.is_stopped() {
            return NextLine::Stop;
        }
        match self.caller() {
            Ok(Some(line)) => NextLine::Came(line),
            Ok(None) => NextLine::Nothing,
            Err(error) => {
                // Where nobody can be told, the status tells.
                let _ = eprintln!(self.runtime; "binkp: a caller can't be answered: {error}");
                NextLine::Failed
            }
        }
    }

    // The line to a host, or the reason on standard error.
    fn dialled(&self, host: &Bytes, port: u16) -> Option<SystemLine<R::Stream, I, O>>
        ensures { IfSome result (λ line. line.tally ≡ nothing_counted) }
    {
        let Ok(name) = str::from_utf8(host.as_slice()) else {
            let _ = eprintln!(self.runtime; "binkp: a host's name is no text");
            return None;
        };
        match dial_line(&self.runtime, name, port) {
            Ok(line) => Some(line),
            Err(error) => {
                let _ = eprintln!(self.runtime; "binkp: {name} port {port}: {error}");
                None
            }
        }
    }
}

fn dial_line<R: Net + Clock + AllocGlobal, I: Drop, O: Drop>(
    runtime: &R,
    host: &str,
    port: u16,
) -> io::Result<SystemLine<R::Stream, I, O>>
    ensures { IfOk result (λ line. line.tally ≡ nothing_counted) }
{
    socket_line(runtime, reach(runtime, host, port)?)
}

impl<
    R: Net + Files + Clock + Eprint + AllocGlobal,
    I: Read + Send + Drop,
    O: Write + Send + Drop,
> Lines for SystemLines<R, I, O>
where
    R::Stream: Send,
{
    type One = SystemLine<R::Stream, I, O>;

    ghost state = { λ lines. system_lines lines.counts };

    fn counts(&self) -> LineCounts {
        self.counts
    }

    /// A stop file that stands already is one of before, and is taken away. Where it can't be, that is told, and the next line is Stop.
    fn listen(&mut self, port: u16) -> Result<(), Failed> {
        self.is_stopped();
        match self.listen_on(port) {
            Ok(listening) => {
                self.listening = Some(listening);
                Ok(())
            }
            Err(error) => {
                let _ = eprintln!(self.runtime; "binkp: port {port}: {error}");
                self.counts.faults = self.counts.faults.saturating_add(1);
                Err(Failed)
            }
        }
    }

    fn next(&mut self) -> NextLine<SystemLine<R::Stream, I, O>> {
        let answer = self.answer();
        let counts = &mut self.counts;
        match &answer {
            NextLine::Came(_) => counts.given = counts.given.saturating_add(1),
            NextLine::Nothing => counts.nothings = counts.nothings.saturating_add(1),
            NextLine::Stop => counts.stops = counts.stops.saturating_add(1),
            NextLine::Failed => counts.faults = counts.faults.saturating_add(1),
        }
        answer
    }

    fn dial(&mut self, host: &Bytes, port: u16) -> Dialled<SystemLine<R::Stream, I, O>> {
        match self.dialled(host, port) {
            Some(line) => {
                self.counts.given = self.counts.given.saturating_add(1);
                Dialled::Line(line)
            }
            None => {
                self.counts.misses = self.counts.misses.saturating_add(1);
                Dialled::Failed
            }
        }
    }

    /// It is closed with that.
    fn back(&mut self, _place: u32, line: SystemLine<R::Stream, I, O>) {
        drop(line);
    }
}
