//! Room for one record.
ghost use Rattle.std.specs.Prelude.{◌≡◌, ◌+◌, ◌-◌, ◌≤◌, ◌<◌, length, OnOk, vec_len, vec_capacity};
ghost use Rattle.ftn_addr.specs.Address.{address};
ghost use Rattle.ftn_addr.specs.Key.{key_of};
ghost use Rattle.ftn_addr.specs.declared.limits.TheConstants.{MAX_DOMAIN, MAX_NAME};

use crate::lists::add;
use crate::log_record::LogEntry;
use ftn_addr::{Addr, Bytes, FileKey, MAX_DOMAIN, MAX_NAME, NoMemory};
use std::alloc::Global;

/// Room for the sender and the key of one record, whatever they are.
#[derive(Debug, Drop)]
pub struct Place {
    domain: Bytes,
    name: Bytes,
    ghost has_domain: { MAX_DOMAIN ≤ domain.spare },
    ghost has_name: { MAX_NAME ≤ name.spare },
}

impl Place {
    pub fn new(alloc: Global) -> Result<Place, NoMemory> {
        let mut domain = Bytes::new(alloc);
        domain.reserve(MAX_DOMAIN)?;
        let mut name = Bytes::new(alloc);
        name.reserve(MAX_NAME)?;
        Ok(Place { domain, name })
    }

    /// The sender and the key, written into the place. It takes no memory.
    pub fn note(self, from: &Addr, key: &FileKey) -> (Addr, FileKey)
        requires domain { length from.now.domain.list ≤ MAX_DOMAIN }
        requires name { length key.now.name.list ≤ MAX_NAME }
        ensures from { address result.0 ≡ address from.now }
        ensures key { key_of result.1 ≡ key_of key.now }
    {
        let Place {
            mut domain,
            mut name,
        } = self;
        domain.clear();
        name.clear();
        domain.push_slice(from.domain.as_slice()).unwrap();
        name.push_slice(key.name.as_slice()).unwrap();
        let from = Addr {
            zone: from.zone,
            net: from.net,
            node: from.node,
            point: from.point,
            domain,
        };
        let key = FileKey {
            name,
            size: key.size,
            time: key.time,
        };
        (from, key)
    }
}

/// Makes places until there are so many, and room in the log for as many records.
pub fn make_places(
    alloc: Global,
    wanted: usize,
    places: &mut Vec<Place>,
    log: &mut Vec<LogEntry>,
) -> Result<(), NoMemory>
    ensures log { log.new.items ≡ log.old.items }
    ensures log_len { vec_len log.new ≡ vec_len log.old }
    ensures log_kept { vec_capacity log.old ≤ vec_capacity log.new }
    ensures kept { vec_len places.old ≤ vec_len places.new }
    ensures places { OnOk result (wanted ≤ vec_len places.new) }
    ensures room { OnOk result (wanted ≤ vec_capacity log.new - vec_len log.new) }
{
    log.reserve(wanted)?;
    for _ in places.len()..wanted {
        add(Place::new(alloc)?, places)?;
    }
    Ok(())
}

/// Takes a place.
pub fn take_place(places: &mut Vec<Place>) -> Place
    requires { 0 < vec_len places.old }
    ensures { vec_len places.new + 1 ≡ vec_len places.old }
{
    places.pop().unwrap()
}
