//! Numbers in hexadecimal digits.
ghost use Rattle.std.specs.Prelude.{◌≡◌, ◌<◌, ◌≤◌, ◌^◌};
ghost use Rattle.bso_outbound.specs.Digits.{four_digits, three_digits_or_more};
ghost use Rattle.bso_outbound.specs.Names.{node_digits};
ghost use Rattle.bso_outbound.specs.Reading.{IsNode, IsNumber, Reads};

use ftn_addr::MAX_ADDRESS_NUMBER;
use hex::FromHex;

/// Four digits of a number, in lower case.
#[tactic(auto, unfolding(crate::specs::Digits::four_digits))]
pub(crate) fn four_digits(number: u16) -> [u8; 4]
    ensures { result ≡ four_digits number }
{
    let mut digits = [0; 4];
    let _ = hex::encode_to_slice(number.to_be_bytes().as_slice(), &mut digits);
    digits
}

/// The number of two bytes that four digits spell.
fn value_of(digits: &[u8]) -> Option<u16>
    ensures { Reads (λ n. n < 2 ^ 16) four_digits digits.now result }
{
    let bytes = <[u8; 2] as FromHex>::from_hex(digits).ok()?;
    Some(u16::from_be_bytes(bytes))
}

/// The number of an address that four digits spell.
pub(crate) fn number_of(digits: &[u8]) -> Option<u16>
    ensures { Reads IsNumber four_digits digits.now result }
{
    let number = value_of(digits)?;
    if number > MAX_ADDRESS_NUMBER {
        return None;
    }
    Some(number)
}

/// The net and the node that eight hexadecimal digits spell, four each, with ASCII case ignored.
///
/// None exactly where no net and node of at most 32,767 are spelled so.
pub fn node_of(digits: &[u8]) -> Option<(u16, u16)>
    ensures { Reads IsNode node_digits digits.now result }
{
    if digits.len() != 8 {
        return None;
    }
    let (net, node) = digits.split_at(4);
    number_of(net).zip(number_of(node))
}

/// A number of more than three digits, which four spell.
fn long_number_of(digits: &[u8]) -> Option<u16>
    ensures { Reads (λ n. (4096 ≤ n) × IsNumber n) four_digits digits.now result }
{
    let number = number_of(digits)?;
    if number < 4096 {
        return None;
    }
    Some(number)
}

/// The number that three digits spell, or four where it has as many.
pub(crate) fn number_of_three_or_more(digits: &[u8]) -> Option<u16>
    ensures { Reads IsNumber three_digits_or_more digits.now result }
{
    if digits.len() == 3 {
        return number_of(&[b'0', digits[0], digits[1], digits[2]]);
    }
    long_number_of(digits)
}
