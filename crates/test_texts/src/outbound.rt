//! The paths of an outbound.
ghost use Rattle.ftn_addr.specs.Address.{address};
ghost use Rattle.ftn_addr.specs.Limits.{IsAddress};

use crate::addresses::{address_of, address_text};
use anyhow::{Result, bail};
use bso_outbound::{Kind, addr_of, ending_of, name_of, zone_folder};
use ftn_addr::{Addr, Bytes};
use node_model::Flavour;
use std::alloc::Global;
use test_script::{number, shown, word, words_from};

/// The zone whose folder is the base.
pub const ZONE: u16 = 2;

fn flavour_of(word: &str) -> Result<Flavour> {
    Ok(match word {
        "immediate" => Flavour::Immediate,
        "crash" => Flavour::Crash,
        "direct" => Flavour::Direct,
        "normal" => Flavour::Normal,
        "hold" => Flavour::Hold,
        _ => bail!("no such flavour"),
    })
}

// What a file is, by the first two of these words.
fn kind_of(words: &[&str]) -> Result<Kind> {
    Ok(match word(words, 0) {
        "flow" => Kind::Flow(flavour_of(word(words, 1))?),
        "mail" => Kind::Mail(flavour_of(word(words, 1))?),
        "request" => Kind::Request,
        _ => bail!("no such kind"),
    })
}

/// How the name of a file ends.
pub fn ending(alloc: Global, words: &[&str]) -> Result<String> {
    let ending = ending_of(kind_of(words_from(words, 1))?);
    Ok(shown(alloc, ending.as_slice())?)
}

/// The path of a file: of a base, an address and what it is.
pub fn path(alloc: Global, words: &[&str]) -> Result<String> {
    let kind = kind_of(words_from(words, 3))?;
    let addr = address_of(alloc, word(words, 2).as_bytes())?;
    let base = Bytes::from_slice(alloc, word(words, 1).as_bytes())?;
    let path = name_of(alloc, &addr, kind, &base, ZONE)?;
    Ok(shown(alloc, path.as_slice())?)
}

/// The folder of a zone: of a base and that zone.
pub fn folder_of_zone(alloc: Global, words: &[&str]) -> Result<String> {
    let zone = u16::try_from(number(words, 2)?)?;
    let base = Bytes::from_slice(alloc, word(words, 1).as_bytes())?;
    let folder = zone_folder(alloc, &base, zone, ZONE)?;
    Ok(shown(alloc, folder.as_slice())?)
}

/// For whom a file is, and what: in a folder, of a name.
pub fn whose(alloc: Global, own: &Addr, base: &Bytes, words: &[&str]) -> Result<String>
    requires { IsAddress (address own.now) }
{
    let (folder, name) = (word(words, 3).as_bytes(), word(words, 4).as_bytes());
    match addr_of(alloc, folder, name, own, base, ZONE)? {
        Some((addr, kind)) => {
            let addr = address_text(alloc, &addr)?;
            Ok(format!(in alloc; "{addr} {kind:?}")?)
        }
        None => Ok(String::from_str(alloc, "none")?),
    }
}
