//! Bytes that are read from the front.
ghost use Rattle.std.specs.Prelude.{◌≡◌, ◌+◌, ◌<◌, ◌≤◌, ◌^◌, ◌&&◌, nat_eq, nat_le, length, IfOk};
ghost use Rattle.std.specs.List.{common_prefix_len};
ghost use Rattle.ftn_addr.specs.Outcomes.{GivesExactly};
ghost use Rattle.nodelist_find.specs.Cursor.{after_magic, byte_at, byte_in, bytes_at, high_bytes, low_bytes, number_in};

use crate::IndexFault;

/// What is left of the bytes, and the offset of its first byte.
#[derive(Clone, Copy)]
pub(crate) struct Cursor<'a> {
    pub place: usize,
    pub rest: &'a [u8],
    ghost inside: { place + length rest.now < 2 ^ 64 },
}

/// How many bytes from the front on are the same.
fn same_front(a: &[u8], b: &[u8]) -> usize
    ensures same { result ≡ common_prefix_len nat_eq a.now b.now }
    ensures within { result ≤ length a.now }
{
    let mut same = 0;
    while same < a.len() && same < b.len() {
        if a[same] != b[same] {
            return same;
        }
        same += 1;
    }
    same
}

/// The numbers from one to another.
#[derive(Clone, Copy)]
pub(crate) struct Span {
    pub low: u16,
    pub high: u16,
}

impl Span {
    ghost use Rattle.nodelist_find.specs.Views.{span_of};

    /// All numbers of one byte.
    pub const BYTES: Span = Span { low: 0, high: 255 };

    /// All numbers of two bytes.
    pub const NUMBERS: Span = Span {
        low: 0,
        high: 65_535,
    };

    fn has(self, byte: u8) -> bool
        ensures { result ≡ (nat_le self.low byte && nat_le byte self.high) }
    {
        self.low <= u16::from(byte) && u16::from(byte) <= self.high
    }

    /// The high bytes of the numbers.
    fn high_bytes(self) -> Span
        ensures { span_of result ≡ high_bytes (span_of self) }
    {
        Span {
            low: self.low / 256,
            high: self.high / 256,
        }
    }

    /// The low bytes of those numbers that have this high byte.
    fn low_bytes(self, high: u8) -> Span
        ensures { span_of result ≡ low_bytes (span_of self) high }
    {
        let high = u16::from(high);
        Span {
            low: if high == self.low / 256 {
                self.low % 256
            } else {
                0
            },
            high: if high == self.high / 256 {
                self.high % 256
            } else {
                255
            },
        }
    }
}

impl<'a> Cursor<'a> {
    ghost use Rattle.nodelist_find.specs.Views.{seen, span_of};

    /// The bytes behind the name of the format.
    #[tactic(auto, unfolding(crate::specs::Cursor::after_magic))]
    pub fn behind_magic(bytes: &'a [u8]) -> Result<Cursor<'a>, IndexFault>
        ensures { GivesExactly seen result (after_magic bytes.now) }
    {
        let same = same_front(bytes, b"nodeidx1");
        if same < 8 {
            return Err(IndexFault::Bad(same as u64));
        }
        Ok(Cursor {
            place: 8,
            rest: &bytes[8..],
        })
    }

    #[tactic(auto, unfolding(crate::specs::Cursor::byte_at))]
    pub fn byte(self) -> Result<(u8, Cursor<'a>), IndexFault>
        ensures { GivesExactly (λ x. (x.0, seen x.1)) result (byte_at (seen self.entry)) }
    {
        let Cursor { place, rest, .. } = self;
        match rest {
            [byte, rest @ ..] => Ok((
                *byte,
                Cursor {
                    place: place + 1,
                    rest,
                },
            )),
            [] => Err(IndexFault::Bad(place as u64)),
        }
    }

    /// A byte of these.
    #[tactic(auto, unfolding(crate::specs::Cursor::byte_in))]
    pub fn byte_in(self, span: Span) -> Result<(u8, Cursor<'a>), IndexFault>
        ensures gives { GivesExactly (λ x. (x.0, seen x.1)) result (byte_in (span_of span) (seen self.entry)) }
        ensures inside { IfOk result (λ x. (span.low ≤ x.0) × (x.0 ≤ span.high)) }
    {
        let place = self.place as u64;
        let (byte, rest) = self.byte()?;
        if !span.has(byte) {
            return Err(IndexFault::Bad(place));
        }
        Ok((byte, rest))
    }

    /// A number of these in two bytes.
    #[tactic(auto, unfolding(crate::specs::Cursor::number_in))]
    pub fn number_in(self, span: Span) -> Result<(u16, Cursor<'a>), IndexFault>
        ensures gives { GivesExactly (λ x. (x.0, seen x.1)) result (number_in (span_of span) (seen self.entry)) }
        ensures inside { IfOk result (λ x. (span.low ≤ x.0) × (x.0 ≤ span.high)) }
    {
        let (high, rest) = self.byte_in(span.high_bytes())?;
        let (low, rest) = rest.byte_in(span.low_bytes(high))?;
        Ok((u16::from(high) * 256 + u16::from(low), rest))
    }

    /// So many bytes.
    #[tactic(auto, unfolding(crate::specs::Cursor::bytes_at))]
    pub fn bytes(self, len: usize) -> Result<(&'a [u8], Cursor<'a>), IndexFault>
        ensures { GivesExactly (λ x. (x.0.now, seen x.1)) result (bytes_at len (seen self.entry)) }
    {
        let Cursor { place, rest, .. } = self;
        if rest.len() < len {
            return Err(IndexFault::Bad((place + rest.len()) as u64));
        }
        let (front, rest) = rest.split_at(len);
        Ok((
            front,
            Cursor {
                place: place + len,
                rest,
            },
        ))
    }
}
