//! Numbers in hexadecimal digits.
ghost use Rattle.std.specs.Prelude.{◌≡◌, ◌<◌, ◌≤◌, length, cond, IfSome, Some, None};
ghost use Rattle.std.specs.List.{list_all};
ghost use Rattle.node_store.specs.Names.{digit_value, eight_digits, four_digits, hex_digit, hex_value, is_hex};

// A hexadecimal digit, in lower case.
fn digit(n: u32) -> u8
    requires { n < 16 }
    ensures { result ≡ hex_digit n }
{
    if n < 10 { 48 + n as u8 } else { 87 + n as u8 }
}

/// Eight digits of a number.
#[tactic(auto, unfolding(crate::specs::Names::eight_digits))]
pub(crate) fn eight(number: u32) -> [u8; 8]
    ensures { result ≡ eight_digits number }
{
    let seven = number / 16;
    let six = seven / 16;
    let five = six / 16;
    let four = five / 16;
    let three = four / 16;
    let two = three / 16;
    let one = two / 16;
    [
        digit(one),
        digit(two % 16),
        digit(three % 16),
        digit(four % 16),
        digit(five % 16),
        digit(six % 16),
        digit(seven % 16),
        digit(number % 16),
    ]
}

/// Four digits of a number.
#[tactic(auto, unfolding(crate::specs::Names::four_digits))]
pub(crate) fn four(number: u16) -> [u8; 4]
    ensures { result ≡ four_digits number }
{
    let last = u32::from(number);
    let three = last / 16;
    let two = three / 16;
    let one = two / 16;
    [
        digit(one),
        digit(two % 16),
        digit(three % 16),
        digit(last % 16),
    ]
}

// The value of a digit in lower case.
fn value_of(byte: u8) -> Option<u32>
    ensures value { result ≡ cond (is_hex byte) (Some (digit_value byte)) None }
    ensures small { IfSome result (λ digit. digit < 16) }
{
    match byte {
        b'0'..=b'9' => Some(u32::from(byte) - 48),
        b'a'..=b'f' => Some(u32::from(byte) - 87),
        _ => None,
    }
}

/// The value of at most eight digits in lower case, if all are such.
pub(crate) fn value(digits: &[u8]) -> Option<u32>
    requires { length digits.now ≤ 8 }
    ensures { result ≡ hex_value digits.now }
{
    let mut value: u32 = 0;
    for byte in digits {
        match value_of(*byte) {
            Some(digit) => value = value * 16 + digit,
            None => return None,
        }
    }
    Some(value)
}

/// Whether all these are digits in lower case.
pub(crate) fn are_digits(bytes: &[u8]) -> bool
    ensures { result ≡ list_all is_hex bytes.now }
{
    bytes.iter().all(|byte| is_digit(*byte))
}

fn is_digit(byte: u8) -> bool
    ensures { result ≡ is_hex byte }
{
    (48 <= byte && byte <= 57) || (97 <= byte && byte <= 102)
}
