//! What the outside files of a disk in memory are.
ghost use Rattle.std.specs.Prelude.{◌≡◌, ◌≢◌, ◌++◌, ◌∷◌, [], true, false, length, is_some, option_map, IfOk, OnOk, ◌||◌, ◌&&◌, not, map, Some, List, ℕ, nat_eq};
ghost use Rattle.std.specs.List.{list_any, before_first, position};
ghost use Rattle.disk_model.specs.World.{OutFile};
ghost use Rattle.std.specs.Str.{bytes_eq};
ghost use Rattle.disk_model.specs.Answers.{stat_of};
ghost use Rattle.disk_model.specs.Folders.{front_of, path_in, is_at_or_below, entry_of, leads_to, Ascend};
ghost use Rattle.mem_disk.specs.Holding.{under, is_named};

use crate::block::Block;
use crate::holdings::Holdings;
use disk_model::OutStat;
use ftn_addr::{Bytes, NoMemory};
use std::alloc::Global;
use std::collections::BTreeSet;

impl Holdings {
    /// Whether an outside file stands under the path.
    pub fn stands_out(&self, path: &Block) -> bool
        ensures { result ≡ is_some (under path.now self.now.outside) }
    {
        self.outside.contains_key(path)
    }

    /// The size and the time of an outside file.
    pub fn stat_out(&self, path: &Block) -> Option<OutStat>
        ensures { result ≡ option_map stat_of (under path.now self.now.outside) }
    {
        match self.outside.get(path) {
            Some(file) => Some(OutStat {
                size: file.bytes.as_slice().len() as u64,
                time: file.time,
            }),
            None => None,
        }
    }

    /// Whether the outside file has that size and time.
    pub fn is_as_it_was(&self, path: &Block, was: &OutStat) -> bool
        ensures yes { result ≡ true → option_map stat_of (under path.now self.now.outside) ≡ Some was.now }
        ensures no { result ≡ false → option_map stat_of (under path.now self.now.outside) ≢ Some was.now }
    {
        match self.stat_out(path) {
            Some(stat) => stat.size == was.size && stat.time == was.time,
            None => false,
        }
    }

    /// Whether the outside file holds exactly the text.
    pub fn has_text(&self, path: &Block, text: &[u8]) -> bool
        ensures yes { result ≡ true → option_map (λ f. f.bytes) (under path.now self.now.outside) ≡ Some text.now }
        ensures no { result ≡ false → option_map (λ f. f.bytes) (under path.now self.now.outside) ≢ Some text.now }
    {
        match self.outside.get(path) {
            Some(file) => file.bytes.as_slice() == text,
            None => false,
        }
    }

    /// The bytes of an outside file of at most so many.
    pub fn copy_out(&self, alloc: Global, path: &Block) -> Result<Block, NoMemory>
        ensures { IfOk result (λ bytes. (f : OutFile) → under path.now self.now.outside ≡ Some f → bytes ≡ f.bytes) }
    {
        match self.outside.get(path) {
            Some(file) => file.bytes.copy(alloc),
            None => Ok(Block::empty(alloc)),
        }
    }

    /// Whether the path is that of an outside file or of a folder of some.
    pub fn in_use(&self, path: &Block) -> bool
        ensures { result ≡ list_any (is_at_or_below path.now) (map (λ e. e.0) self.now.outside) }
    {
        self.outside
            .keys()
            .any(|at| is_at_or_below(path.as_slice(), at.as_slice()))
    }

    /// The paths of all outside files.
    pub fn paths(&self, alloc: Global) -> Result<Vec<&Block>, NoMemory>
        ensures { IfOk result (λ paths. map (λ path. path.now) paths.items ≡ map (λ e. e.0) self.now.outside) }
    {
        let paths = self.outside.keys().collect(alloc)?;
        Ok(paths)
    }
}

/// The path of a name in a folder.
pub fn path_in(alloc: Global, folder: &Bytes, name: &Bytes) -> Result<Block, NoMemory>
    ensures { IfOk result (λ path. path ≡ path_in folder.now.list name.now.list) }
{
    let mut path = front_of(alloc, folder.as_slice())?;
    path.extend_from_slice(name.as_slice())?;
    Ok(Block::from_vec(path))
}

// How the paths in a folder begin.
fn front_of(alloc: Global, folder: &[u8]) -> Result<Vec<u8>, NoMemory>
    ensures { IfOk result (λ front. front.items ≡ front_of folder.now) }
{
    let mut front = Vec::from_slice(alloc, folder)?;
    if !folder.is_empty() && folder != b"/".as_slice() {
        front.push(b'/')?;
    }
    Ok(front)
}

fn is_at_or_below(path: &[u8], at: &[u8]) -> bool
    ensures { result ≡ is_at_or_below path.now at.now }
{
    match at.strip_prefix(path) {
        Some(rest) => rest.is_empty() || rest[0] == b'/',
        None => false,
    }
}

// The name in a folder through which a path leads.
fn entry_of<'a>(front: &[u8], path: &'a [u8]) -> &'a [u8]
    ensures { result.now ≡ entry_of front.now path.now }
{
    match path.strip_prefix(front) {
        Some(rest) => before_slash(rest),
        None => &[],
    }
}

fn before_slash(rest: &[u8]) -> &[u8]
    ensures { result.now ≡ before_first (λ b. nat_eq b 47) rest.now }
{
    match slash(rest) {
        Some(end) => &rest[..end],
        None => rest,
    }
}

fn slash(rest: &[u8]) -> Option<usize>
    ensures { result ≡ position (λ b. nat_eq b 47) rest.now }
{
    rest.iter().position(|byte| *byte == b'/')
}

/// The names of what stands directly in a folder, in the order of their bytes.
pub fn names_in(alloc: Global, folder: &[u8], paths: &[&Block]) -> Result<BTreeSet<Block>, NoMemory>
    ensures names { IfOk result (λ found. (q : List ℕ) → list_any (is_named q) found.keys ≡ list_any (leads_to (front_of folder.now) q) (map (λ path. path.now) paths.now)) }
    ensures ascend { IfOk result (λ found. Ascend found.keys) }
{
    let front = front_of(alloc, folder)?;
    let mut found = BTreeSet::new(alloc);
    for path in paths {
        add_name(alloc, &mut found, entry_of(&front, path.as_slice()))?;
    }
    Ok(found)
}

fn add_name(alloc: Global, found: &mut BTreeSet<Block>, name: &[u8]) -> Result<(), NoMemory>
    ensures names { OnOk result ((q : List ℕ) → list_any (is_named q) found.new.keys ≡ (list_any (is_named q) found.old.keys || (not (bytes_eq name.now []) && bytes_eq q name.now))) }
    ensures ascend { OnOk result (Ascend found.old.keys → Ascend found.new.keys) }
{
    if name.is_empty() {
        return Ok(());
    }
    found.insert(Block::from_slice(alloc, name)?)?;
    Ok(())
}

/// The names in the order in which they stand.
pub fn in_order(alloc: Global, mut found: BTreeSet<Block>) -> Result<Vec<Bytes>, NoMemory>
    ensures { IfOk result (λ names. map (λ name. name.list) names.items ≡ found.keys) }
{
    let mut names = Vec::new(alloc);
    while let Some(name) = found.pop_first() {
        names.push(Bytes::from_slice(alloc, name.as_slice())?)?;
    }
    Ok(names)
}
