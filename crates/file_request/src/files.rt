//! The files of shares by their names.
ghost use Rattle.std.specs.Prelude.{◌≡◌, List, ℕ, map, option_map, IfOk, OnOk};
ghost use Rattle.std.specs.Option.{option_or};
ghost use Rattle.file_request.specs.Files.{found, given_by};
ghost use Rattle.file_request.specs.Share.{name_in, path_in, path_of};
ghost use Rattle.file_request.specs.Views.{shared};

use crate::Share;
use ftn_addr::{Bytes, MAX_NAME, NoMemory};
use std::alloc::Global;
use std::collections::BTreeMap;

/// A file that may be requested.
#[derive(Clone, Copy)]
pub(crate) struct Offered<'a> {
    folder: &'a Bytes,
    name: &'a Bytes,
}

/// The first file of each name, under the name in lower case.
pub(crate) type Files<'a> = BTreeMap<Bytes, Offered<'a>>;

/// Adds a file, unless there is one of its name already or its name is too long.
fn add_file<'a>(alloc: Global, files: &mut Files<'a>, file: Offered<'a>) -> Result<(), NoMemory>
    ensures { OnOk result ((word : List ℕ) → found files.new word
        ≡ option_or (found files.old word) (given_by file.entry word)) }
{
    if file.name.len() > MAX_NAME {
        return Ok(());
    }
    let key = Bytes::lower_case(alloc, file.name.as_slice())?;
    if !files.contains_key(&key) {
        files.insert(key, file)?;
    }
    Ok(())
}

/// Adds the files of a share.
fn add_share<'a>(alloc: Global, files: &mut Files<'a>, share: &'a Share) -> Result<(), NoMemory>
    ensures { OnOk result ((word : List ℕ) → found files.new word
        ≡ option_or (found files.old word)
        (option_map (path_of share.now.folder.list) (name_in word (map (λ name. name.list) share.now.names.items)))) }
{
    for name in &share.names {
        let folder = &share.folder;
        add_file(alloc, files, Offered { folder, name })?;
    }
    Ok(())
}

/// The files of the shares. Of files of one name it has the first of the first share.
pub(crate) fn files_of<'a>(alloc: Global, shares: &'a [Share]) -> Result<Files<'a>, NoMemory>
    ensures { IfOk result (λ files. (word : List ℕ) → found files word ≡ path_in word (map shared shares.now)) }
{
    let mut files = BTreeMap::new(alloc);
    for share in shares {
        add_share(alloc, &mut files, share)?;
    }
    Ok(files)
}

fn path_of(alloc: Global, folder: &Bytes, name: &Bytes) -> Result<Bytes, NoMemory>
    ensures { IfOk result (λ path. path.list ≡ path_of folder.now.list name.now.list) }
{
    let mut path = folder.copy(alloc)?;
    path.push_slice(b"/")?;
    path.push_slice(name.as_slice())?;
    Ok(path)
}

/// The path of the file that a word asks for.
pub(crate) fn path_in(
    alloc: Global,
    word: &[u8],
    files: &Files<'_>,
) -> Result<Option<Bytes>, NoMemory>
    ensures { IfOk result (λ path. option_map (λ path. path.list) path ≡ found files.now word.now) }
{
    let key = Bytes::lower_case(alloc, word)?;
    match files.get(&key) {
        Some(file) => Ok(Some(path_of(alloc, file.folder, file.name)?)),
        None => Ok(None),
    }
}
