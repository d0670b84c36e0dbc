//! The answer to a request.
ghost use Rattle.std.specs.Prelude.{◌≡◌, ◌<◌, ◌≤◌, length, map, option_map, IsNone, IfOk};
ghost use Rattle.ftn_addr.specs.Word.{words_of};
ghost use Rattle.file_request.specs.Answer.{answer_of, asked_word, answer_short};
ghost use Rattle.file_request.specs.Files.{found};
ghost use Rattle.file_request.specs.Views.{answered, shared};

use crate::Share;
use crate::files::{Files, files_of, path_in};
use ftn_addr::{Bytes, NoMemory, first_line, words};
use std::alloc::Global;

/// What a request gets.
#[derive(Debug, Drop)]
pub struct Answer {
    /// The paths of the files, in the order of the request's lines; at most 64.
    pub files: Vec<Bytes>,
    /// How many lines that aren't empty got no file.
    pub passed: u32,
}

/// The longest request, in bytes.
const MAX_REQUEST: usize = 65_536;

/// The most files of one request.
const MAX_FILES: usize = 64;

/// The path of the file that a line asks for, which a line of one word can do.
fn asked_by(alloc: Global, line: &[u8], files: &Files<'_>) -> Result<Option<Bytes>, NoMemory>
    ensures { IfOk result (λ path. option_map (λ path. path.list) path
        ≡ asked_word (found files.now) (words_of line.now)) }
{
    match words(alloc, line)?.as_slice() {
        [word] => path_in(alloc, *word, files),
        _ => Ok(None),
    }
}

/// The path of the file that a line gets where some files were given already.
fn next_file(
    alloc: Global,
    line: &[u8],
    files: &Files<'_>,
    given: usize,
) -> Result<Option<Bytes>, NoMemory>
    ensures asked { given < 64 → IfOk result (λ path. option_map (λ path. path.list) path
        ≡ asked_word (found files.now) (words_of line.now)) }
    ensures full { 64 ≤ given → IfOk result (λ path. IsNone path) }
{
    if given < MAX_FILES {
        asked_by(alloc, line, files)
    } else {
        Ok(None)
    }
}

/// The answer to a request that isn't over the size limit.
fn answer_lines(alloc: Global, bytes: &[u8], shares: &[Share]) -> Result<Answer, NoMemory>
    requires { length bytes.now ≤ 65536 }
    ensures { IfOk result (λ answer. answered answer ≡ answer_short (map shared shares.now) bytes.now) }
{
    let known = files_of(alloc, shares)?;
    let mut files = Vec::new(alloc);
    let mut passed = 0;
    let mut rest = bytes;
    while let Some((line, after)) = first_line(rest) {
        if !line.is_empty() {
            match next_file(alloc, line, &known, files.len())? {
                Some(path) => files.push(path)?,
                None => passed += 1,
            }
        }
        rest = after;
    }
    Ok(Answer { files, passed })
}

/// The files that a request gets, and how many of its lines got none.
///
/// A line that is one word, equal to a name of at most 200 bytes in a share with the case of letters
/// ignored, asks for that file. Shares are tried in their order, and so are the names of each. After the
/// 64th file no line gets one. A request of more than 65,536 bytes asks for nothing. The only error is
/// want of memory.
pub fn answer_request(alloc: Global, bytes: &[u8], shares: &[Share]) -> Result<Answer, NoMemory>
    ensures { IfOk result (λ answer. answered answer ≡ answer_of (map shared shares.now) bytes.now) }
{
    if bytes.len() > MAX_REQUEST {
        return Ok(Answer {
            files: Vec::new(alloc),
            passed: 0,
        });
    }
    answer_lines(alloc, bytes, shares)
}
