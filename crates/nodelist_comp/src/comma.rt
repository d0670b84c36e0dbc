//! The fields of a line, which stand between its commas.
ghost use Rattle.std.specs.Prelude.{◌≡◌, ◌<◌, ◌==◌, ◌∷◌, drop, length, option_map, position, IfSome};
ghost use Rattle.std.specs.List.{slice_split};
ghost use Rattle.nodelist_comp.specs.Fields.{fields_left};

fn first_comma(line: &[u8]) -> Option<usize>
    ensures { result ≡ position (λ byte. byte == 44) line.now }
{
    line.iter().position(|byte| *byte == b',')
}

/// The first field, and what stands behind its comma.
pub(crate) fn first_field(line: &[u8]) -> (&[u8], Option<&[u8]>)
    ensures fields { slice_split (λ byte. byte == 44) line.now
        ≡ result.0.now ∷ fields_left (option_map (λ rest. rest.now) result.1) }
    ensures shorter { IfSome result.1 (λ rest. length rest.now < length line.now) }
{
    match first_comma(line) {
        Some(end) => (&line[..end], Some(&line[end + 1..])),
        None => (line, None),
    }
}

/// What is left behind `n` fields.
pub(crate) fn behind_fields(rest: Option<&[u8]>, n: usize) -> Option<&[u8]>
    ensures { fields_left (option_map (λ rest. rest.now) result)
        ≡ drop n (fields_left (option_map (λ rest. rest.now) rest.entry)) }
{
    let mut rest = rest;
    let mut left = n;
    while left > 0 {
        let (_, after) = first_field(rest?);
        rest = after;
        left -= 1;
    }
    rest
}
