//! A short text that grows, and is kept in a cell.
ghost use Rattle.std.specs.Prelude.{◌≤◌};

use std::str;

const ROOM: usize = 512;

/// What is past its room is dropped.
#[derive(Clone, Copy)]
pub struct Journal {
    bytes: [u8; 512],
    len: usize,
    ghost fits: { len ≤ 512 },
}

impl Journal {
    pub fn new() -> Journal {
        Journal {
            bytes: [0; ROOM],
            len: 0,
        }
    }

    pub fn push(&mut self, text: &str) {
        for byte in text.as_bytes() {
            self.push_byte(*byte);
        }
    }

    fn push_byte(&mut self, byte: u8) {
        if self.len < ROOM {
            self.bytes[self.len] = byte;
            self.len += 1;
        }
    }

    /// The last digit of a number.
    pub fn push_digit(&mut self, number: u64) {
        self.push_byte(b'0' + (number % 10) as u8);
    }

    pub fn as_str(&self) -> &str {
        str::from_utf8(&self.bytes[..self.len]).unwrap_or("")
    }
}
