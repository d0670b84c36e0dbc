//! Names as words, by this project's own rule of escapes.
ghost use Rattle.std.specs.Prelude.{◌≡◌, ℕ, List, ◌*◌, ◌<◌, ◌++◌, false, drop, length, IsTrue, OnOk, OnErr};
ghost use Rattle.std.specs.Char.{digit_value, is_ascii_hexdigit};
ghost use Rattle.std.specs.List.{All};
ghost use Rattle.std.specs.Fmt.{digit_glyph};
ghost use Rattle.binkp_args.specs.Escape.{is_plain, escaped, is_long_escape, is_short_escape, front_byte, front_len, unescaped};

use ftn_addr::{Bytes, NoMemory};
use std::alloc::Global;

fn is_plain(byte: u8) -> bool
    ensures { result ≡ is_plain byte }
{
    byte.is_ascii_alphanumeric()
        || matches!(
            byte,
            b'-' | b'_'
                | b'.'
                | b'!'
                | b'@'
                | b'#'
                | b'$'
                | b'%'
                | b'&'
                | b'('
                | b')'
                | b'+'
                | b'='
                | b'~'
        )
}

fn digit(value: u8) -> u8
    requires { value < 16 }
    ensures { result ≡ digit_glyph false value }
{
    if value < 10 {
        b'0' + value
    } else {
        b'a' + value - 10
    }
}

/// Writes a name at the end of `out`, as one word. Plainly written are letters, digits and
/// `-_.!@#$%&()+=~`; every other byte is `\x` and two lower-case digits.
///
/// # Errors
/// `NoMemory`: `out` holds what it held.
pub fn escape(alloc: Global, name: &[u8], out: &mut Bytes) -> Result<(), NoMemory>
    ensures ok { OnOk result (out.new.list ≡ out.old.list ++ escaped name.now) }
    ensures err { OnErr result (out.new.list ≡ out.old.list) }
{
    let mut word = Bytes::new(alloc);
    for byte in name {
        if is_plain(*byte) {
            word.push_slice(&[*byte])?;
        } else {
            word.push_slice(&[b'\\', b'x', digit(*byte / 16), digit(*byte % 16)])?;
        }
    }
    out.push_slice(word.as_slice())
}

fn value_of(digit: u8) -> u8
    requires { IsTrue (is_ascii_hexdigit digit) }
    ensures value { result ≡ digit_value digit }
    ensures small { result < 16 }
{
    match digit {
        b'0'..=b'9' => digit - b'0',
        b'a'..=b'f' => digit - b'a' + 10,
        _ => digit - b'A' + 10,
    }
}

fn is_long_escape(word: &[u8]) -> bool
    ensures { result ≡ is_long_escape word.now }
{
    word.len() > 3
        && word[0] == b'\\'
        && word[1] == b'x'
        && word[2].is_ascii_hexdigit()
        && word[3].is_ascii_hexdigit()
}

fn is_short_escape(word: &[u8]) -> bool
    ensures { result ≡ is_short_escape word.now }
{
    word.len() > 2 && word[0] == b'\\' && word[1].is_ascii_hexdigit() && word[2].is_ascii_hexdigit()
}

/// The byte that the front of a word stands for, and what follows it.
fn front(word: &[u8]) -> (u8, &[u8])
    requires { 0 < length word.now }
    ensures byte { result.0 ≡ front_byte word.now }
    ensures rest { result.1.now ≡ drop (front_len word.now) word.now }
    ensures shorter { length result.1.now < length word.now }
{
    if is_long_escape(word) {
        (16 * value_of(word[2]) + value_of(word[3]), &word[4..])
    } else if is_short_escape(word) {
        (16 * value_of(word[1]) + value_of(word[2]), &word[3..])
    } else {
        (word[0], &word[1..])
    }
}

/// Writes the name that a word stands for at the end of `out`. `\x` and two hexadecimal digits stand for
/// a byte, and so do `\` and two digits; every other byte stands for itself.
///
/// # Errors
/// `NoMemory`: `out` holds what it held.
pub fn unescape(alloc: Global, word: &[u8], out: &mut Bytes) -> Result<(), NoMemory>
    ensures ok { OnOk result (out.new.list ≡ out.old.list ++ unescaped word.now) }
    ensures err { OnErr result (out.new.list ≡ out.old.list) }
{
    let mut name = Bytes::new(alloc);
    let mut rest = word;
    while !rest.is_empty() {
        let (byte, after) = front(rest);
        name.push_slice(&[byte])?;
        rest = after;
    }
    out.push_slice(name.as_slice())
}

/// An escaped name is read as the name.
pub fn reads_what_is_escaped()
    ensures { (name : List ℕ) → All (λ byte. byte < 256) name → unescaped (escaped name) ≡ name }
{}
