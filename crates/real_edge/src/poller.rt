//! Waiting for descriptors of the system.
use crate::waits::{Ready, Waits};
use mio::event::Event;
use mio::unix::SourceFd;
use mio::{Events, Interest, Poll, Registry, Token};
use std::alloc::Global;
use std::io;
use std::net::Net;
use std::os::fd::RawFd;
use std::time::Duration;

// Under which tokens the input and an output of its own are watched.
const INPUT: Token = Token(0);

const OUTPUT: Token = Token(1);

/// A descriptor, and whether the system watches it.
#[derive(Debug, Drop)]
struct Watched {
    descriptor: RawFd,
    token: Token,
    is_watched: bool,
}

impl Watched {
    fn new(descriptor: RawFd, token: Token) -> Watched {
        Watched {
            descriptor,
            token,
            is_watched: false,
        }
    }

    /// Has it watched from now on. Whether it has to be: of a regular file each call goes on at once, and the system refuses it.
    fn watch(&mut self, registry: &Registry, interest: Interest) -> io::Result<bool> {
        let mut source = SourceFd(&self.descriptor);
        let answer = if self.is_watched {
            registry.reregister(&mut source, self.token, interest)
        } else {
            registry.register(&mut source, self.token, interest)
        };
        match answer {
            Ok(()) => {
                self.is_watched = true;
                Ok(true)
            }
            Err(error) if error.kind() == io::ErrorKind::PermissionDenied => Ok(false),
            Err(error) => Err(error),
        }
    }

    /// Has it watched no more.
    fn pass_over(&mut self, registry: &Registry) -> io::Result<()> {
        if self.is_watched {
            registry.deregister(&mut SourceFd(&self.descriptor))?;
            self.is_watched = false;
        }
        Ok(())
    }
}

/// Waits for the descriptor of an input and that of an output, which may be the same.
#[derive(Drop)]
pub struct Poller {
    poll: Poll,
    events: Events,
    input: Watched,
    output: Option<Watched>,
}

/// What is to be waited for.
enum Waited {
    /// Nothing: this is ready already.
    Nothing(Ready),
    /// What is watched, at most so long.
    Watched(Duration),
}

const READY_INPUT: Ready = Ready {
    input: true,
    output: false,
};

const READY_OUTPUT: Ready = Ready {
    input: false,
    output: true,
};

/// Has a socket watched for writes, and for reads, where they are heeded.
fn watch_socket(
    socket: &mut Watched,
    registry: &Registry,
    most: Duration,
    heeds_input: bool,
) -> io::Result<Waited> {
    let interest = if heeds_input {
        Interest::READABLE | Interest::WRITABLE
    } else {
        Interest::WRITABLE
    };
    if socket.watch(registry, interest)? {
        return Ok(Waited::Watched(most));
    }
    Ok(Waited::Nothing(READY_OUTPUT))
}

impl Poller {
    /// One that waits for both ways of a socket.
    pub fn of_socket(net: &impl Net, alloc: Global, socket: RawFd) -> io::Result<Poller> {
        Poller::new(net, alloc, socket, None)
    }

    /// One that waits for an input and an output.
    pub fn of_streams(
        net: &impl Net,
        alloc: Global,
        input: RawFd,
        output: RawFd,
    ) -> io::Result<Poller> {
        Poller::new(net, alloc, input, Some(Watched::new(output, OUTPUT)))
    }

    fn new(
        net: &impl Net,
        alloc: Global,
        input: RawFd,
        output: Option<Watched>,
    ) -> io::Result<Poller> {
        Ok(Poller {
            poll: Poll::new(net)?,
            events: Events::with_capacity(alloc, 4)?,
            input: Watched::new(input, INPUT),
            output,
        })
    }

    /// Whether an event says that the input is ready.
    fn is_input(&self, event: &Event) -> bool {
        event.token() == INPUT
            && (event.is_readable() || event.is_read_closed() || event.is_error())
    }

    /// Whether it says that the output is.
    fn is_output(&self, event: &Event) -> bool {
        (event.token() == OUTPUT || self.output.is_none())
            && (event.is_writable() || event.is_write_closed() || event.is_error())
    }

    /// Has the input watched alone.
    fn watch_input(&mut self, most: Duration) -> io::Result<Waited> {
        let registry = self.poll.registry();
        if let Some(output) = &mut self.output {
            output.pass_over(registry)?;
        }
        if self.input.watch(registry, Interest::READABLE)? {
            return Ok(Waited::Watched(most));
        }
        Ok(Waited::Nothing(READY_INPUT))
    }

    /// Has the output watched, and the input, where that is heeded.
    fn watch_output(&mut self, most: Duration, heeds_input: bool) -> io::Result<Waited> {
        let registry = self.poll.registry();
        let Some(output) = &mut self.output else {
            return watch_socket(&mut self.input, registry, most, heeds_input);
        };
        if !output.watch(registry, Interest::WRITABLE)? {
            return Ok(Waited::Nothing(READY_OUTPUT));
        }
        if !heeds_input {
            self.input.pass_over(registry)?;
            return Ok(Waited::Watched(most));
        }
        if self.input.watch(registry, Interest::READABLE)? {
            return Ok(Waited::Watched(most));
        }
        Ok(Waited::Nothing(READY_INPUT))
    }

    /// Has nothing watched.
    fn watch_nothing(&mut self) -> io::Result<()> {
        let registry = self.poll.registry();
        if let Some(output) = &mut self.output {
            output.pass_over(registry)?;
        }
        self.input.pass_over(registry)
    }

    /// Waits for what is watched.
    fn wait(&mut self, waited: Waited) -> io::Result<Ready> {
        let most = match waited {
            Waited::Nothing(ready) => return Ok(ready),
            Waited::Watched(most) => most,
        };
        self.poll.poll(&mut self.events, Some(most))?;
        Ok(Ready {
            input: self.events.iter().any(|event| self.is_input(event)),
            output: self.events.iter().any(|event| self.is_output(event)),
        })
    }
}

impl Waits for Poller {
    fn for_input(&mut self, most: Duration) -> io::Result<bool> {
        let waited = self.watch_input(most)?;
        let ready = self.wait(waited)?;
        Ok(ready.input)
    }

    fn for_output(&mut self, most: Duration, heeds_input: bool) -> io::Result<Ready> {
        let waited = self.watch_output(most, heeds_input)?;
        self.wait(waited)
    }

    fn pause(&mut self, time: Duration) -> io::Result<()> {
        self.watch_nothing()?;
        self.poll.poll(&mut self.events, Some(time))
    }
}
