//! The domain of an address.
ghost use Rattle.std.specs.Prelude.{◌≡◌};
ghost use Rattle.std.specs.List.{list_all};
ghost use Rattle.ftn_addr.specs.Domain.{domain_byte, is_domain};

use crate::MAX_DOMAIN;

fn is_domain_byte(byte: u8) -> bool
    ensures { result ≡ domain_byte byte }
{
    byte.is_ascii_alphanumeric() || matches!(byte, b'-' | b'_' | b'.')
}

fn are_domain_bytes(bytes: &[u8]) -> bool
    ensures { result ≡ list_all domain_byte bytes.now }
{
    bytes.iter().all(|byte| is_domain_byte(*byte))
}

/// Whether a text is a domain: 1 to [`MAX_DOMAIN`] letters, digits, `-`, `_` and `.` (FTS-5005).
pub fn is_domain(bytes: &[u8]) -> bool
    ensures { result ≡ is_domain bytes.now }
{
    !bytes.is_empty() && bytes.len() <= MAX_DOMAIN && are_domain_bytes(bytes)
}
