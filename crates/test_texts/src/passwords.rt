//! Challenges, and the digests that answer them.
use crate::byte_lists::put;
use anyhow::{Result, bail};
use cram_md5::{Offer, answer_text, hmac, offer_text, read_offer};
use ftn_addr::Bytes;
use std::alloc::Global;
use test_script::{number, shown, word};

/// The digest of a text, by a key of a word so many times.
pub fn digest(alloc: Global, words: &[&str], text: &[u8]) -> Result<String> {
    let (piece, times) = (word(words, 1), number(words, 2)?);
    let mut key = Bytes::new(alloc);
    put(alloc, times, piece, &mut key)?;
    let digest = hmac(key.as_slice(), text);
    Ok(hex::encode(alloc, digest.as_slice())?)
}

/// What a text offers, with the challenge.
pub fn offer(alloc: Global, text: &[u8]) -> Result<String> {
    let kind = match read_offer(alloc, text)? {
        Offer::Md5(challenge) => {
            let challenge = shown(alloc, challenge.as_slice())?;
            return Ok(format!(in alloc; "md5 \"{challenge}\"")?);
        }
        Offer::Absent => "absent",
        Offer::Foreign => "foreign",
        Offer::Bad => "bad",
    };
    Ok(String::from_str(alloc, kind)?)
}

/// The answer to a challenge, by a password.
pub fn answer(alloc: Global, password: &str, challenge: &[u8]) -> Result<String> {
    let mut answer = Bytes::new(alloc);
    answer_text(alloc, password.as_bytes(), challenge, &mut answer)?;
    Ok(shown(alloc, answer.as_slice())?)
}

/// The offer of a challenge.
pub fn offered(alloc: Global, challenge: &[u8]) -> Result<String> {
    let Some(challenge) = challenge.as_array::<16>() else {
        bail!("no challenge of 16 bytes");
    };
    let mut out = Bytes::from_slice(alloc, b"OPT ")?;
    offer_text(alloc, challenge, &mut out)?;
    Ok(shown(alloc, out.as_slice())?)
}
