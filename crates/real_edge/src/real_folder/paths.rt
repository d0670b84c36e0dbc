//! The paths of files, as the runtime takes them: texts in UTF-8.
ghost use Rattle.std.specs.Prelude.{◌≡◌, nat_eq, string_bytes, IfOk, IfSome, OnOk};
ghost use Rattle.std.specs.List.{list_any};
ghost use Rattle.disk_model.specs.Folders.{path_in};
ghost use Rattle.real_edge.specs.Names.{is_entry_name};

use crate::error::{Answer, SystemCall, refused, told};
use disk_model::Name;
use ftn_addr::NoMemory;
use std::alloc::Global;
use std::{io, str};

/// Where a mark's text is written before it has its path. It is no name of an own file.
const MARK: &str = "MARK_";

/// The length of the longest name in the folder, with the '/' in front of it.
const NAME_ROOM: usize = 65;

/// The path of the own folder, with room for the paths of two files.
#[derive(Drop)]
pub struct Paths {
    folder: String,
    first: String,
    second: String,
}

impl Paths {
    /// The paths in that folder.
    pub fn new(alloc: Global, folder: &str) -> Result<Paths, NoMemory> {
        let room = folder.len().saturating_add(NAME_ROOM);
        Ok(Paths {
            folder: String::from_str(alloc, folder)?,
            first: String::with_capacity(alloc, room)?,
            second: String::with_capacity(alloc, room)?,
        })
    }

    pub fn folder(&self) -> &str {
        self.folder.as_str()
    }

    /// The path of an own file.
    pub fn own(&mut self, name: &Name) -> Answer<&str>
        ensures { IfOk result (λ path. path.now ≡ path_in (string_bytes self.old.folder) name.now) }
    {
        let name = whole_text(name.as_slice())?;
        join(&mut self.first, self.folder.as_str(), name)?;
        Ok(self.first.as_str())
    }

    /// The paths of two own files.
    pub fn two(&mut self, from: &Name, to: &Name) -> Answer<(&str, &str)>
        ensures from { IfOk result (λ paths. paths.0.now ≡ path_in (string_bytes self.old.folder) from.now) }
        ensures to { IfOk result (λ paths. paths.1.now ≡ path_in (string_bytes self.old.folder) to.now) }
    {
        let folder = self.folder.as_str();
        join(&mut self.first, folder, whole_text(from.as_slice())?)?;
        join(&mut self.second, folder, whole_text(to.as_slice())?)?;
        Ok((self.first.as_str(), self.second.as_str()))
    }

    /// The path of an own file, and that of a name in an outside folder.
    pub fn out(&mut self, own: &Name, folder: &str, name: &str) -> Answer<(&str, &str)>
        ensures own { IfOk result (λ paths. paths.0.now ≡ path_in (string_bytes self.old.folder) own.now) }
        ensures given { IfOk result (λ paths. paths.1.now ≡ path_in folder.now name.now) }
    {
        join(
            &mut self.first,
            self.folder.as_str(),
            whole_text(own.as_slice())?,
        )?;
        join(&mut self.second, folder, name)?;
        Ok((self.first.as_str(), self.second.as_str()))
    }

    /// The path under which a mark is written.
    pub fn mark(&mut self) -> Answer<&str> {
        join(&mut self.first, self.folder.as_str(), MARK)?;
        Ok(self.first.as_str())
    }
}

/// A path or name as text, or None where it isn't UTF-8. No file has such a path here.
pub fn text(bytes: &[u8]) -> Option<&str>
    ensures { IfSome result (λ text. text.now ≡ bytes.now) }
{
    str::from_utf8(bytes).ok()
}

/// The same of a path that has to be one.
pub fn whole_text(bytes: &[u8]) -> Answer<&str>
    ensures { IfOk result (λ text. text.now ≡ bytes.now) }
{
    match text(bytes) {
        Some(text) => Ok(text),
        None => Err(refused(SystemCall::Path, io::ErrorKind::InvalidFilename)),
    }
}

/// The folder in which a path stands.
pub fn folder_of(path: &str) -> &str {
    match path.rsplit_once('/') {
        Some(("", _)) => "/",
        Some((folder, _)) => folder,
        None => "",
    }
}

/// Whether a folder can have a file of that name.
pub fn is_entry_name(name: &str) -> bool
    ensures { result ≡ is_entry_name name.now }
{
    name != "" && name != "." && name != ".." && !has_slash(name.as_bytes())
}

fn has_slash(name: &[u8]) -> bool
    ensures { result ≡ list_any (λ b. nat_eq b 47) name.now }
{
    name.iter().any(|byte| *byte == b'/')
}

// Spells the path of a name in a folder. The empty folder is the one that the program runs in.
fn join(path: &mut String, folder: &str, name: &str) -> Answer<()>
    ensures { OnOk result (string_bytes path.new ≡ path_in folder.now name.now) }
{
    told(SystemCall::Path, spell(path, folder, name))
}

fn spell(path: &mut String, folder: &str, name: &str) -> io::Result<()>
    ensures { OnOk result (string_bytes path.new ≡ path_in folder.now name.now) }
{
    path.clear();
    path.push_str(folder)?;
    if !(folder == "" || folder == "/") {
        path.push('/')?;
    }
    path.push_str(name)?;
    Ok(())
}
