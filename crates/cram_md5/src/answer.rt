//! The answer to a challenge.
ghost use Rattle.std.specs.Prelude.{◌≡◌, ◌++◌, OnOk, OnErr};
ghost use Rattle.hex.specs.Hex.{encode_lower};
ghost use Rattle.cram_md5.specs.Answer.{answer, is_answer};

use crate::hmac;
use ftn_addr::{Bytes, NoMemory, is_same_word};
use std::alloc::Global;

/// Adds the answer to a challenge at the end of `out`: `CRAM-MD5-` and the 32 lower case digits of the
/// digest (FTS-1027).
pub fn answer_text(
    alloc: Global,
    password: &[u8],
    challenge: &[u8],
    out: &mut Bytes,
) -> Result<(), NoMemory>
    ensures ok { OnOk result (out.new.list ≡ out.old.list ++ answer password.now challenge.now) }
    ensures err { OnErr result (out.new.list ≡ out.old.list) }
{
    let digest = hmac(password, challenge);
    let digits = hex::encode(alloc, digest.as_slice())?;
    out.reserve(9 + digits.len())?;
    out.push_slice(b"CRAM-MD5-")?;
    out.push_slice(digits.as_bytes())
}

/// The digits of a digest.
fn digits_of(digest: [u8; 16]) -> [u8; 32]
    ensures { result ≡ encode_lower digest }
{
    let mut digits = [0; 32];
    let _ = hex::encode_to_slice(digest.as_slice(), &mut digits);
    digits
}

/// Whether what came as the password is right: the digits of the digest behind `CRAM-MD5-`, in either
/// case, or the password itself where it doesn't begin so. It takes no memory.
pub fn check(password: &[u8], challenge: &[u8], answer: &[u8]) -> bool
    ensures { result ≡ is_answer password.now challenge.now answer.now }
{
    if answer.starts_with(b"CRAM-MD5-") {
        is_same_word(&answer[9..], &digits_of(hmac(password, challenge)))
    } else {
        answer == password
    }
}
