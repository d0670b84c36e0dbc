//! The header of a ledger's file.
ghost use Rattle.std.specs.Prelude.{◌≡◌, ◌++◌, ◌<◌, ◌^◌, drop, MatchOption, IfSome};
ghost use Rattle.ledger_file.specs.Reading.{IsNoLedger};
ghost use Rattle.ledger_file.specs.Text.{header_of};

/// The number of bytes of a header.
pub(crate) const LEN: usize = 16;

/// The header of this version.
pub(crate) fn header_bytes(version: u32) -> [u8; 16]
    ensures { result ≡ header_of version }
{
    let [a, b, c, d] = version.to_be_bytes();
    [
        b'b', b'i', b'n', b'k', b'p', b'l', b'd', b'g', a, b, c, d, 0, 0, 0, 0,
    ]
}

/// The version of the header that stands at the front, or None where there is none.
pub(crate) fn read_version(bytes: &[u8]) -> Option<u32>
    ensures header { MatchOption result (IsNoLedger bytes.now) (λ version. bytes.now ≡ header_of version ++ drop 16 bytes.now) }
    ensures number { IfSome result (λ version. version < 2 ^ 32) }
{
    if bytes.len() < LEN {
        return None;
    }
    let version = u32::from_be_bytes([bytes[8], bytes[9], bytes[10], bytes[11]]);
    if bytes[..LEN] == header_bytes(version)[..] {
        Some(version)
    } else {
        None
    }
}
