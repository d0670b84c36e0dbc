//! Under which names received files are given (own).
ghost use Rattle.std.specs.Prelude.{◌≡◌, ◌<◌, map, false, IfOk};
ghost use Rattle.std.specs.Fmt.{digit_glyph};
ghost use Rattle.node_model.specs.Outside.{eight_digits, is_plain, numbered_name, plain_byte, plain_name, without_front_dot};

use ftn_addr::{Bytes, NoMemory};
use std::alloc::{AllocError, Global};

fn is_plain(byte: u8) -> bool
    ensures { result ≡ is_plain byte }
{
    byte.is_ascii_alphanumeric()
        || matches!(
            byte,
            b'-' | b'_'
                | b'.'
                | b'!'
                | b'@'
                | b'#'
                | b'$'
                | b'%'
                | b'&'
                | b'('
                | b')'
                | b'+'
                | b'='
                | b'~'
        )
}

fn plain_byte(byte: u8) -> u8
    ensures { result ≡ plain_byte byte }
{
    if is_plain(byte) { byte } else { b'_' }
}

fn plain_bytes(alloc: Global, name: &[u8]) -> Result<Vec<u8>, AllocError>
    ensures { IfOk result (λ plain. plain.items ≡ map plain_byte name.now) }
{
    name.iter().map(|byte| plain_byte(*byte)).collect(alloc)
}

/// A received file's name made plain: each byte but letters, digits and `-_.!@#$%&()+=~`, and a `.` at the front, is
/// `_`.
pub fn plain_name(alloc: Global, name: &[u8]) -> Result<Bytes, NoMemory>
    ensures { IfOk result (λ plain. plain.list ≡ plain_name name.now) }
{
    let mut plain = plain_bytes(alloc, name)?;
    if !plain.is_empty() && plain[0] == b'.' {
        plain[0] = b'_';
    }
    Bytes::from_slice(alloc, plain.as_slice())
}

fn digit(value: u32) -> u8
    requires { value < 16 }
    ensures { result ≡ digit_glyph false value }
{
    if value < 10 {
        b'0' + value as u8
    } else {
        b'a' + (value as u8 - 10)
    }
}

// Eight lower-case hexadecimal digits.
fn eight_digits(number: u32) -> [u8; 8]
    ensures { result ≡ eight_digits number }
{
    [
        digit(number / 268_435_456 % 16),
        digit(number / 16_777_216 % 16),
        digit(number / 1_048_576 % 16),
        digit(number / 65_536 % 16),
        digit(number / 4_096 % 16),
        digit(number / 256 % 16),
        digit(number / 16 % 16),
        digit(number / 1 % 16),
    ]
}

/// The plain name behind the eight hexadecimal digits of a receipt's number and `-`.
pub fn numbered_name(alloc: Global, receipt: u32, name: &[u8]) -> Result<Bytes, NoMemory>
    ensures { IfOk result (λ numbered. numbered.list ≡ numbered_name receipt name.now) }
{
    let plain = plain_name(alloc, name)?;
    let mut numbered = Bytes::from_slice(alloc, &eight_digits(receipt))?;
    numbered.push_slice(b"-")?;
    numbered.push_slice(plain.as_slice())?;
    Ok(numbered)
}
