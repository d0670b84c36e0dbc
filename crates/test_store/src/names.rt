//! The names of own files.
use disk_model::Name;
use ftn_addr::{Addr, Bytes, Failed, NoMemory};
use node_model::Flavour;
use node_store::{
    MarkKind, TakeKind, in_file, mark_file, out_file, queued_number, received_number, take_file,
    take_number,
};
use std::alloc::Global;
use std::test::Fail;
use test_script::{number, shown, word};

// The address 2:5020/1042.7@fidonet.
fn point(alloc: Global) -> Result<Addr, NoMemory> {
    Ok(Addr {
        zone: 2,
        net: 5020,
        node: 1042,
        point: 7,
        domain: Bytes::from_slice(alloc, b"fidonet")?,
    })
}

/// The name of an own file of that kind, and with that number.
pub fn file_name(alloc: Global, words: &[&str]) -> Result<String, Fail> {
    let number = u32::try_from(number(words, 2).unwrap_or(0))?;
    let point = point(alloc)?;
    let name = match word(words, 1) {
        "out" => out_file(number),
        "in" => in_file(number),
        "take" => take_file(number, &point, TakeKind::Flow(Flavour::Crash)),
        "mark" => mark_file(&point, MarkKind::Busy),
        _ => return Err(Failed.into()),
    };
    Ok(shown(alloc, name.as_slice())?)
}

/// The number in the name of an own file of that kind.
pub fn number_in(alloc: Global, words: &[&str]) -> Result<String, Fail> {
    let name = Name::new(word(words, 2).as_bytes()).ok_or(Failed)?;
    let number = match word(words, 1) {
        "take" => take_number(&name),
        "queued" => queued_number(&name),
        "received" => received_number(&name),
        _ => return Err(Failed.into()),
    };
    Ok(format!(in alloc; "{number:?}")?)
}
