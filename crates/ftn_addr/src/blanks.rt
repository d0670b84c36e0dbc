//! Spaces and tabs.
ghost use Rattle.std.specs.Prelude.{◌≡◌};
ghost use Rattle.ftn_addr.specs.Blanks.{is_blank, trimmed, without_back, without_front};

pub(crate) fn is_blank(byte: u8) -> bool
    ensures { result ≡ is_blank byte }
{
    byte == b' ' || byte == b'\t'
}

pub(crate) fn without_front(bytes: &[u8]) -> &[u8]
    ensures { result.now ≡ without_front bytes.now }
{
    let mut rest = bytes;
    while let [first, after @ ..] = rest {
        if !is_blank(*first) {
            break;
        }
        rest = after;
    }
    rest
}

fn without_back(bytes: &[u8]) -> &[u8]
    ensures { result.now ≡ without_back bytes.now }
{
    let mut rest = bytes;
    while let [before @ .., last] = rest {
        if !is_blank(*last) {
            break;
        }
        rest = before;
    }
    rest
}

/// The bytes without the spaces and tabs at their ends.
pub fn trimmed(bytes: &[u8]) -> &[u8]
    ensures { result.now ≡ trimmed bytes.now }
{
    without_back(without_front(bytes))
}
