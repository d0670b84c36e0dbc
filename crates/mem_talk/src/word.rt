//! What a peer says, command by command.
ghost use Rattle.ftn_addr.specs.Key.{key_of};
ghost use Rattle.ftn_addr.specs.Limits.{IsKey};

use crate::offered::{Offered, address};
use binkp_args::{Command, fits_a_frame, write_command};
use ftn_addr::{Bytes, NoMemory, write_addr};
use std::alloc::Global;

/// A frame or two of a peer, or bytes of its own.
#[derive(Clone, Copy)]
pub enum Word<'a> {
    /// These bytes.
    Raw(&'a [u8]),
    /// M_ADR of that node, and M_PWD `-`, which is none.
    Login(u16),
    /// M_FILE of that file, from that place.
    File(Offered, u64),
    /// The frame of data of that file from that place, of at most 4,096 bytes: an empty one at its end and past it.
    Block(Offered, u64),
    /// M_GET of that file, from that place.
    Get(Offered, u64),
    /// M_GOT of that file.
    Got(Offered),
    /// M_EOB.
    End,
    /// A command of that number and text, of at most 255 bytes together.
    Command(u8, &'a [u8]),
    /// A frame of data, of at most 255 bytes.
    Data(&'a [u8]),
}

/// The bytes of these words, one behind the other.
pub fn bytes_of(alloc: Global, words: &[Word<'_>]) -> Result<Bytes, NoMemory> {
    let mut bytes = Bytes::new(alloc);
    for word in words {
        put(alloc, *word, &mut bytes)?;
    }
    Ok(bytes)
}

fn put(alloc: Global, word: Word<'_>, bytes: &mut Bytes) -> Result<(), NoMemory> {
    match word {
        Word::Raw(raw) => bytes.push_slice(raw),
        Word::Login(node) => put_login(alloc, node, bytes),
        Word::File(file, place) => put_file(alloc, file, place, bytes),
        Word::Block(file, place) => put_block(alloc, file, place, bytes),
        Word::Get(file, place) => put_get(alloc, file, place, bytes),
        Word::Got(file) => put_got(alloc, file, bytes),
        Word::End => write_command(alloc, &Command::Eob, bytes),
        Word::Command(number, text) => put_command(number, text, bytes),
        Word::Data(data) => put_data(data, bytes),
    }
}

fn put_login(alloc: Global, node: u16, bytes: &mut Bytes) -> Result<(), NoMemory> {
    let mut text = Bytes::new(alloc);
    write_addr(alloc, &address(alloc, node)?, &mut text)?;
    put_command(1, text.as_slice(), bytes)?;
    put_command(2, b"-", bytes)
}

fn put_file(alloc: Global, file: Offered, place: u64, bytes: &mut Bytes) -> Result<(), NoMemory> {
    let key = file.key(alloc)?;
    fits_a_frame();
    write_command(alloc, &Command::File(key, place), bytes)
}

fn put_get(alloc: Global, file: Offered, place: u64, bytes: &mut Bytes) -> Result<(), NoMemory> {
    let key = file.key(alloc)?;
    fits_a_frame();
    write_command(alloc, &Command::Get(key, place), bytes)
}

fn put_got(alloc: Global, file: Offered, bytes: &mut Bytes) -> Result<(), NoMemory> {
    let key = file.key(alloc)?;
    fits_a_frame();
    write_command(alloc, &Command::Got(key), bytes)
}

fn put_command(number: u8, text: &[u8], bytes: &mut Bytes) -> Result<(), NoMemory> {
    let len = text.len().min(254) + 1;
    bytes.push_slice(&[128, len as u8, number])?;
    bytes.push_slice(&text[..len - 1])
}

fn put_data(data: &[u8], bytes: &mut Bytes) -> Result<(), NoMemory> {
    let len = data.len().min(255);
    bytes.push_slice(&[0, len as u8])?;
    bytes.push_slice(&data[..len])
}

fn put_block(alloc: Global, file: Offered, place: u64, bytes: &mut Bytes) -> Result<(), NoMemory> {
    let content = file.content(alloc)?;
    let Some(rest) = content.as_slice().get(place as usize..) else {
        return bytes.push_slice(&[0, 0]);
    };
    let len = rest.len().min(4096);
    bytes.push_slice(&[(len / 256) as u8, (len % 256) as u8])?;
    bytes.push_slice(&rest[..len])
}
