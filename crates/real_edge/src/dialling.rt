//! Calls to a host.
use std::io;
use std::net::{Net, TcpStream, ToSocketAddrs};
use std::rt::Clock;
use std::time::Duration;

// For how many seconds the addresses of a host are tried, all together.
const MOST: u64 = 30;

// How long an address may take, of the time that is left for so many of them.
fn share_of(left: Duration, addresses: usize) -> Duration {
    let many = u32::try_from(addresses).unwrap_or(u32::MAX);
    left.checked_div(many).unwrap_or(left)
}

fn refused(kind: io::ErrorKind) -> io::Error {
    io::Error::from(kind)
}

/// A socket to a port of a host. Each address of its name is tried, of either version, for an equal part of what is left of 30 seconds.
///
/// # Errors
/// The reason of the last address that was tried, or that of the look-up.
pub fn reach<R: Net + Clock>(runtime: &R, host: &str, port: u16) -> io::Result<R::Stream> {
    let start = runtime.monotonic()?;
    let addresses = (host, port).to_socket_addrs(runtime)?;
    let mut untried = addresses.len();
    let mut last = refused(io::ErrorKind::NotFound);
    for address in addresses {
        let spent = runtime.monotonic()?.saturating_sub(start);
        let left = Duration::from_secs(MOST).saturating_sub(spent);
        if left.is_zero() {
            return Err(refused(io::ErrorKind::TimedOut));
        }
        match TcpStream::connect_timeout(runtime, &address, share_of(left, untried)) {
            Ok(socket) => return Ok(socket),
            Err(error) => last = error,
        }
        untried = untried.saturating_sub(1);
    }
    Err(last)
}
