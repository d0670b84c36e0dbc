//! The folders of zones.
ghost use Rattle.std.specs.Prelude.{◌≡◌, ◌≢◌, ◌++◌, [], IfOk, OnOk};
ghost use Rattle.bso_outbound.specs.Digits.{three_digits_or_more};
ghost use Rattle.bso_outbound.specs.Names.{zone_ending, zone_folder};
ghost use Rattle.bso_outbound.specs.Reading.{IsNumber, Reads};

use crate::digits::{four_digits, number_of_three_or_more};
use ftn_addr::{Bytes, MAX_ADDRESS_NUMBER, NoMemory, is_same_word};

/// Adds how the name of a zone's folder ends.
pub(crate) fn push_zone_ending(zone: u16, default: u16, name: &mut Bytes) -> Result<(), NoMemory>
    ensures { OnOk result (name.new.list ≡ name.old.list ++ zone_ending zone default) }
{
    if zone == default {
        return Ok(());
    }
    name.push_slice(b".")?;
    let digits = four_digits(zone);
    if zone < 4096 {
        name.push_slice(&digits[1..])
    } else {
        name.push_slice(&digits)
    }
}

/// The default zone, where it is a zone of addresses.
fn default_zone(default: u16) -> Option<u16>
    ensures { Reads (λ zone. IsNumber zone × (zone ≡ default)) (λ _. []) [] result }
{
    if default > MAX_ADDRESS_NUMBER {
        return None;
    }
    Some(default)
}

/// A zone that isn't the default one, of at least three digits.
fn other_zone(digits: &[u8], default: u16) -> Option<u16>
    ensures { Reads (λ zone. IsNumber zone × (zone ≢ default)) three_digits_or_more digits.now result }
{
    let zone = number_of_three_or_more(digits)?;
    if zone == default {
        return None;
    }
    Some(zone)
}

/// The zone whose folder's name ends so behind the base's name.
fn zone_of_ending(end: &[u8], default: u16) -> Option<u16>
    ensures { Reads IsNumber (λ zone. zone_ending zone default) end.now result }
{
    match end {
        [] => default_zone(default),
        [mark, digits @ ..] => {
            if *mark != b'.' {
                return None;
            }
            other_zone(digits, default)
        }
    }
}

/// The zone for which a folder of this name stands beside the base, whose own last part is `base`.
///
/// Names are compared with ASCII case ignored. The base itself is for the zone `default`, and no other
/// folder is. None exactly where no zone of at most 32,767 has a folder of this name.
pub fn zone_of(folder: &[u8], base: &[u8], default: u16) -> Option<u16>
    ensures { Reads IsNumber (λ zone. zone_folder base.now zone default) folder.now result }
{
    if folder.len() < base.len() {
        return None;
    }
    let (front, end) = folder.split_at(base.len());
    if !is_same_word(front, base) {
        return None;
    }
    zone_of_ending(end, default)
}
