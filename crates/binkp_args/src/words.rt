//! The words of an argument.
ghost use Rattle.std.specs.Prelude.{◌≡◌, map, IfOk};
ghost use Rattle.binkp_args.specs.Words.{without_end, words_of};

use ftn_addr::NoMemory;
use std::alloc::Global;

/// The argument without one byte 0 at its end.
pub(crate) fn trimmed(args: &[u8]) -> &[u8]
    ensures { result.now ≡ without_end args.now }
{
    match args {
        [front @ .., 0] => front,
        _ => args,
    }
}

/// What stands between runs of spaces.
pub(crate) fn split_words<'a>(alloc: Global, text: &'a [u8]) -> Result<Vec<&'a [u8]>, NoMemory>
    ensures { IfOk result (λ words. map (λ word. word.now) words.items ≡ words_of text.now) }
{
    let words = text
        .split(|byte| *byte == b' ')
        .filter(|word| !word.is_empty())
        .collect(alloc)?;
    Ok(words)
}
