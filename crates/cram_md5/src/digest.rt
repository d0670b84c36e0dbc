//! HMAC-MD5.
ghost use Rattle.std.specs.Prelude.{◌≡◌, ◌-◌, ◌≤◌, ◌++◌, length, replicate, map, bit_xor};
ghost use Rattle.md5.specs.Md5.{md5};
ghost use Rattle.cram_md5.specs.Hmac.{hmac, padded};

use md5::{Digest, Md5};

/// The bytes of a block of MD5.
const BLOCK: usize = 64;

/// The MD5 of two pieces, one behind the other.
fn digest_of(first: &[u8], second: &[u8]) -> [u8; 16]
    ensures { result ≡ md5 (first.now ++ second.now) }
{
    let mut hasher = Md5::new();
    hasher.update(first);
    hasher.update(second);
    hasher.finalize()
}

fn zeros_after(key: &[u8]) -> [u8; BLOCK]
    requires { length key.now ≤ 64 }
    ensures { result ≡ key.now ++ replicate (64 - length key.now) 0 }
{
    let mut block = [0; BLOCK];
    block[..key.len()].copy_from_slice(key);
    block
}

fn padded(key: &[u8]) -> [u8; BLOCK]
    ensures { result ≡ padded key.now }
{
    if key.len() > BLOCK {
        zeros_after(&digest_of(key, &[]))
    } else {
        zeros_after(key)
    }
}

fn mask(bytes: &mut [u8], pad: u8)
    ensures { bytes.new ≡ map (λ byte. bit_xor byte pad) bytes.old }
{
    for byte in bytes.iter_mut() {
        *byte ^= pad;
    }
}

fn masked(key: [u8; BLOCK], pad: u8) -> [u8; BLOCK]
    ensures { result ≡ map (λ byte. bit_xor byte pad) key }
{
    let mut masked = key;
    mask(&mut masked, pad);
    masked
}

/// HMAC-MD5 (RFC 2104, section 2) of a text, for a key of any length. It takes no memory.
pub fn hmac(key: &[u8], text: &[u8]) -> [u8; 16]
    ensures { result ≡ hmac key.now text.now }
{
    let key = padded(key);
    let inner = digest_of(&masked(key, 0x36), text);
    digest_of(&masked(key, 0x5c), &inner)
}
