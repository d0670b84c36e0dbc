//! Words that are numbers.
ghost use Rattle.std.specs.Prelude.{◌≡◌, None, IfSome, ℕ};
ghost use Rattle.command_words.specs.Numbers.{SpellsWithin};

use ftn_addr::read_digits;

/// The number that a word of digits alone spells, or None where it has another byte, or the number isn't within the bounds.
pub(crate) fn number_within(word: &[u8], low: u32, high: u32) -> Option<u32>
    ensures some { IfSome result (λ number. SpellsWithin low high word.now number) }
    ensures none { result ≡ None → (number : ℕ) → SpellsWithin low high word.now number → ⊥ }
{
    match read_digits(word) {
        Some(number) if u64::from(low) <= number && number <= u64::from(high) => {
            Some(number as u32)
        }
        _ => None,
    }
}
