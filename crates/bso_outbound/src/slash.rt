//! The parts of a path.
ghost use Rattle.std.specs.Prelude.{◌≡◌, ◌≤◌, ◌==◌, length, option_map, position};
ghost use Rattle.bso_outbound.specs.Paths.{up_to_slash};
ghost use Rattle.bso_outbound.specs.Reading.{CutAtSlash};

fn first_slash(path: &[u8]) -> Option<usize>
    ensures { result ≡ position (λ byte. byte == 47) path.now }
{
    path.iter().position(|byte| *byte == b'/')
}

/// What stands before the first `/`, and what stands behind it.
pub(crate) fn cut_at_slash(path: &[u8]) -> Option<(&[u8], &[u8])>
    ensures { CutAtSlash path.now (option_map (λ parts. (parts.0.now, parts.1.now)) result) }
{
    let place = first_slash(path)?;
    Some((&path[..place], &path[place + 1..]))
}

/// The bytes up to and with the last `/`.
pub(crate) fn up_to_slash(path: &[u8]) -> &[u8]
    ensures front { result.now ≡ up_to_slash path.now }
    ensures within { length result.now ≤ length path.now }
{
    let mut front = path;
    while let [before @ .., last] = front {
        if *last == b'/' {
            break;
        }
        front = before;
    }
    front
}
