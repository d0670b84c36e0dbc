//! What stands for the standard streams: pipes, or files.
use std::fs::File;
use std::io;
use std::io::{PipeReader, PipeWriter, Read, Write};
use std::os::fd::{AsRawFd, RawFd};

/// What stands for standard input.
#[derive(Drop)]
pub enum Input {
    Pipe(PipeReader),
    File(File),
}

impl Read for Input {
    fn read(&mut self, buf: &mut [u8]) -> io::Result<usize> {
        match self {
            Input::Pipe(pipe) => pipe.read(buf),
            Input::File(file) => file.read(buf),
        }
    }
}

impl AsRawFd for Input {
    fn as_raw_fd(&self) -> RawFd {
        match self {
            Input::Pipe(pipe) => pipe.as_raw_fd(),
            Input::File(file) => file.as_raw_fd(),
        }
    }
}

/// What stands for standard output.
#[derive(Drop)]
pub enum Output {
    Pipe(PipeWriter),
    File(File),
}

impl Write for Output {
    fn write(&mut self, buf: &[u8]) -> io::Result<usize> {
        match self {
            Output::Pipe(pipe) => pipe.write(buf),
            Output::File(file) => file.write(buf),
        }
    }

    fn flush(&mut self) -> io::Result<()> {
        Ok(())
    }
}

impl AsRawFd for Output {
    fn as_raw_fd(&self) -> RawFd {
        match self {
            Output::Pipe(pipe) => pipe.as_raw_fd(),
            Output::File(file) => file.as_raw_fd(),
        }
    }
}
