//! The places of an outbound.
ghost use Rattle.ftn_addr.specs.Address.{address};
ghost use Rattle.ftn_addr.specs.Limits.{IsAddress};

use crate::addresses::{address_of, addresses_text};
use crate::outbound::{ZONE, whose};
use crate::shown::quoted;
use anyhow::{Context, Result};
use ftn_addr::{Addr, Bytes};
use outbound_places::{OutboundFile, Place, PlaceSet, file_in, path_in, place_in};
use std::alloc::Global;
use test_script::{shown, word};

/// The numbers of a place.
pub fn place_text(alloc: Global, place: Option<Place>) -> Result<String> {
    Ok(match place {
        Some(place) => {
            let (zone, net, node, point) = (place.zone, place.net, place.node, place.point);
            format!(in alloc; "{zone}:{net}/{node}.{point}")?
        }
        None => String::from_str(alloc, "none")?,
    })
}

fn file_text(alloc: Global, file: &OutboundFile) -> Result<String> {
    let path = shown(alloc, file.path.as_slice())?;
    let place = place_text(alloc, Some(file.place))?;
    Ok(format!(in alloc; "{path} {place}")?)
}

// The path of a file, and for whom it is: in a folder, of a name.
fn file(alloc: Global, own: &Addr, base: &Bytes, words: &[&str]) -> Result<String>
    requires { IsAddress (address own.now) }
{
    let folder = Bytes::from_slice(alloc, word(words, 3).as_bytes())?;
    let name = Bytes::from_slice(alloc, word(words, 4).as_bytes())?;
    match file_in(alloc, &folder, &name, own, base, ZONE)? {
        Some(file) => file_text(alloc, &file),
        None => Ok(String::from_str(alloc, "none")?),
    }
}

/// For whom a file is: of a base, the own address, a folder and a name. A `file` with its path, else with what it is.
pub fn of_file(alloc: Global, words: &[&str]) -> Result<String> {
    let own = address_of(alloc, word(words, 2).as_bytes())?;
    let base = Bytes::from_slice(alloc, word(words, 1).as_bytes())?;
    if word(words, 0) == "file" {
        file(alloc, &own, &base, words)
    } else {
        whose(alloc, &own, &base, words)
    }
}

/// The path of a name in a folder.
pub fn path_of(alloc: Global, words: &[&str]) -> Result<String> {
    let path = path_in(alloc, word(words, 2).as_bytes(), word(words, 1).as_bytes())?;
    quoted(alloc, path.as_slice())
}

/// The place of an address in a domain.
pub fn place(alloc: Global, text: &str, domain: &str) -> Result<Option<Place>> {
    let addr = address_of(alloc, text.as_bytes())?;
    let domain = Bytes::from_slice(alloc, domain.as_bytes())?;
    Ok(place_in(&addr, &domain))
}

// The places of these addresses.
fn set_of(alloc: Global, texts: &[&str]) -> Result<PlaceSet> {
    let mut places = PlaceSet::new(alloc);
    for text in texts {
        let place = place(alloc, text, "fidonet")?.context("no place")?;
        places.insert(place)?;
    }
    Ok(places)
}

/// The addresses of the places of these addresses, as they come out of a set.
pub fn in_order(alloc: Global, texts: &[&str]) -> Result<String> {
    let places = set_of(alloc, texts)?;
    let domain = Bytes::from_slice(alloc, b"fidonet")?;
    let found = places.addresses(alloc, &domain)?;
    Ok(addresses_text(alloc, found.as_slice())?)
}
