//! Words that are compared with the case of letters ignored.
ghost use Rattle.std.specs.Prelude.{◌≡◌};
ghost use Rattle.ftn_addr.specs.Case.{same_word};

/// Whether two words differ in nothing but the case of ASCII letters.
pub fn is_same_word(a: &[u8], b: &[u8]) -> bool
    ensures { result ≡ same_word a.now b.now }
{
    a.eq_ignore_ascii_case(b)
}
