//! A runtime in front of the system, which notes what it is asked for, and answers as a script says or as the system does.
use crate::seen::{Seen, fault, next};
use std::alloc::{Allocator, Global};
use std::fmt::Display;
use std::fs::{File, Metadata, OpenOptions};
use std::io;
use std::io::Eprint;
use std::net::{IpAddr, Ipv4Addr, Net, OpenListener, SocketAddr, TcpListener, TcpStream};
use std::os::fd::{AsRawFd, RawFd};
use std::rt::{Clock, Files};
use std::time::Duration;

/// For how many milliseconds a host hangs that doesn't keep to its time.
const HANGING: u64 = 60_000;

#[derive(Clone, Copy)]
pub struct Front<'a, 't> {
    pub rt: HostRuntime,
    pub seen: &'a Seen<'t>,
}

// A text in which the number of a port, where it stands, is `P`.
fn masked(alloc: Global, text: &str, port: u16) -> io::Result<String> {
    let number = format!(in alloc; "{port}")?;
    match text.split_once(number.as_str()) {
        Some((before, behind)) if port > 0 => Ok(format!(in alloc; "{before}P{behind}")?),
        _ => Ok(String::from_str(alloc, text)?),
    }
}

// How long an address takes, in milliseconds, of so many at most.
fn time_of(word: &str, most: u64) -> u64 {
    match word {
        "silent" | "late" => most,
        "hanging" => HANGING,
        _ => 0,
    }
}

// Puts the addresses that these words are, and says how many.
fn put_addresses(words: &str, port: u16, found: &mut [SocketAddr]) -> usize {
    let mut many = 0u32;
    for (place, word) in found.iter_mut().zip(words.split_whitespace()) {
        if let Ok(ip) = word.parse::<IpAddr>() {
            *place = SocketAddr::new(ip, port);
            many = many.saturating_add(1);
        }
    }
    many as usize
}

impl<'a, 't> Front<'a, 't> {
    fn note(&self, call: &str) -> io::Result<()> {
        let text = masked(self.rt.alloc(), call, self.seen.port.get())?;
        self.seen.note(text.as_str());
        Ok(())
    }

    fn note_connect(&self, addr: SocketAddr, most: u64) -> io::Result<()> {
        let text = format!(in self.rt.alloc(); "connect {addr} {most}")?;
        self.note(text.as_str())
    }

    // A machine without the sixth version listens on the fourth at once, so that one call is seen on each machine.
    fn bind_either(&self, addr: SocketAddr) -> io::Result<TcpListener> {
        match self.rt.bind(addr) {
            Ok(listener) => Ok(listener),
            Err(_) => self
                .rt
                .bind(SocketAddr::from((Ipv4Addr::UNSPECIFIED, addr.port()))),
        }
    }
}

impl<'a, 't> Alloc for Front<'a, 't> {
    type A = Global;

    fn alloc(&self) -> Global {
        self.rt.alloc()
    }
}

impl<'a, 't> Net for Front<'a, 't> {
    type Stream = TcpStream;

    type Listener = FrontListener<'a, 't>;

    fn bind(&self, addr: SocketAddr) -> io::Result<FrontListener<'a, 't>> {
        let text = format!(in self.rt.alloc(); "bind {addr}")?;
        self.note(text.as_str())?;
        if let Some(kind) = fault(next(&self.seen.binds, "real")) {
            return Err(io::Error::from(kind));
        }
        Ok(FrontListener {
            listener: self.bind_either(addr)?,
            seen: self.seen,
        })
    }

    fn connect(&self, addr: SocketAddr) -> io::Result<TcpStream> {
        self.seen.note("connect without a limit");
        self.rt.connect(addr)
    }

    fn connect_timeout(&self, addr: SocketAddr, timeout: Duration) -> io::Result<TcpStream> {
        let most = u64::try_from(timeout.as_millis()).unwrap_or(u64::MAX);
        self.note_connect(addr, most)?;
        let word = next(&self.seen.dials, "real");
        self.seen.pass(time_of(word, most));
        match fault(word) {
            Some(kind) => Err(io::Error::from(kind)),
            None => self.rt.connect_timeout(addr, timeout),
        }
    }

    fn lookup_host(&self, host: &str, port: u16, found: &mut [SocketAddr]) -> io::Result<usize> {
        let text = format!(in self.rt.alloc(); "lookup {host}")?;
        self.note(text.as_str())?;
        let words = self.seen.hosts.get();
        match fault(words) {
            Some(kind) => Err(io::Error::from(kind)),
            None => Ok(put_addresses(words, port, found).min(found.len())),
        }
    }
}

/// A listener, whose calls are noted that take in a caller.
#[derive(Drop)]
pub struct FrontListener<'a, 't> {
    listener: TcpListener,
    seen: &'a Seen<'t>,
}

impl<'a, 't> OpenListener for FrontListener<'a, 't> {
    type Stream = TcpStream;

    fn accept(&self) -> io::Result<(TcpStream, SocketAddr)> {
        self.seen.note("accept");
        match fault(next(&self.seen.accepts, "real")) {
            Some(kind) => Err(io::Error::from(kind)),
            None => self.listener.accept(),
        }
    }

    fn local_addr(&self) -> io::Result<SocketAddr> {
        self.listener.local_addr()
    }

    fn set_nonblocking(&self, nonblocking: bool) -> io::Result<()> {
        self.listener.set_nonblocking(nonblocking)
    }
}

impl<'a, 't> AsRawFd for FrontListener<'a, 't> {
    fn as_raw_fd(&self) -> RawFd {
        self.listener.as_raw_fd()
    }
}

/// It moves as the script says.
impl<'a, 't> Clock for Front<'a, 't> {
    fn monotonic(&self) -> io::Result<Duration> {
        match self.seen.clock.get() {
            Some(now) => Ok(Duration::from_millis(now)),
            None => Err(io::Error::from(io::ErrorKind::Unsupported)),
        }
    }

    fn since_1970(&self) -> io::Result<Duration> {
        self.rt.since_1970()
    }
}

impl<'a, 't> Eprint for Front<'a, 't> {
    fn eprint<D: Display + Drop>(&self, value: D) -> io::Result<()> {
        let text = format!(in self.rt.alloc(); "tell {value}")?;
        self.note(text.as_str())
    }

    fn eprintln<D: Display + Drop>(&self, value: D) -> io::Result<()> {
        self.eprint(value)
    }
}

/// The lines of the system ask for no call but that which removes a file.
impl<'a, 't> Files for Front<'a, 't> {
    type File = File;

    type Dir = <HostRuntime as Files>::Dir;

    fn open_file(&self, how: &OpenOptions, path: &str) -> io::Result<File> {
        self.seen.note("open");
        self.rt.open_file(how, path)
    }

    fn open_dir(&self, path: &str) -> io::Result<<HostRuntime as Files>::Dir> {
        self.seen.note("list");
        self.rt.open_dir(path)
    }

    fn metadata(&self, path: &str) -> io::Result<Metadata> {
        self.seen.note("stat");
        self.rt.metadata(path)
    }

    fn symlink_metadata(&self, path: &str) -> io::Result<Metadata> {
        self.seen.note("lstat");
        self.rt.symlink_metadata(path)
    }

    fn copy(&self, from: &str, to: &str) -> io::Result<u64> {
        self.seen.note("copy");
        self.rt.copy(from, to)
    }

    fn rename(&self, from: &str, to: &str) -> io::Result<()> {
        self.seen.note("rename");
        self.rt.rename(from, to)
    }

    fn remove_file(&self, path: &str) -> io::Result<()> {
        let text = format!(in self.rt.alloc(); "remove {path}")?;
        self.note(text.as_str())?;
        match fault(next(&self.seen.removes, "real")) {
            Some(kind) => Err(io::Error::from(kind)),
            None => self.rt.remove_file(path),
        }
    }

    fn create_dir(&self, path: &str) -> io::Result<()> {
        self.seen.note("mkdir");
        self.rt.create_dir(path)
    }

    fn remove_dir(&self, path: &str) -> io::Result<()> {
        self.seen.note("rmdir");
        self.rt.remove_dir(path)
    }

    fn remove_dir_all<B: Allocator>(&self, alloc: B, path: &str) -> io::Result<()> {
        self.seen.note("rmdir");
        self.rt.remove_dir_all(alloc, path)
    }
}
