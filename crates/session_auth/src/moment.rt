//! The moment as the greeting has it.
ghost use Rattle.std.specs.Prelude.{◌≡◌, ◌≤◌, length, IfOk};
ghost use Rattle.session_auth.specs.Moment.{moment_text};

use crate::passwords::front;
use ftn_addr::{Bytes, NoMemory};
use httpdate::HttpDate;
use std::alloc::Global;

/// The bytes of a date and a time without the zone.
const UNZONED: usize = 25;

/// The date and the time of a moment in seconds since 1970, in UTC as RFC 2822 writes them.
pub(crate) fn moment_text(alloc: Global, now: u64) -> Result<Bytes, NoMemory>
    requires { now ≤ 250000000000 }
    ensures text { IfOk result (λ text. text.list ≡ moment_text now) }
    ensures length { IfOk result (λ text. length text.list ≤ 32) }
{
    let mut text = Bytes::new(alloc);
    let Ok(date) = HttpDate::from_unix_secs(now) else {
        return Ok(text);
    };
    let bytes = date.to_bytes();
    text.push_slice(front(&bytes, UNZONED))?;
    text.push_slice(b" +0000")?;
    Ok(text)
}
