//! The base of an outbound, the sysop's path.
ghost use Rattle.std.specs.Prelude.{◌≡◌};
ghost use Rattle.bso_outbound.specs.Paths.{folder_above, last_part};

use crate::slash::up_to_slash;

/// The folder in which the folders of zones stand.
///
/// Above a base without `/` it is the empty one, in which the program was started. Above a base whose
/// only `/` is its first byte it is `/`.
pub fn folder_above(base: &[u8]) -> &[u8]
    ensures { result.now ≡ folder_above base.now }
{
    let front = up_to_slash(base);
    if front.len() <= 1 {
        return front;
    }
    &base[..front.len() - 1]
}

/// The base's name in the folder above it: what stands behind its last `/`.
pub fn last_part(base: &[u8]) -> &[u8]
    ensures { result.now ≡ last_part base.now }
{
    let front = up_to_slash(base);
    &base[front.len()..]
}
