//! What other programs do in front of the folder.
use anyhow::{Context, Result, bail};
use std::fs::{FileTimes, OpenFile, OpenOptions};
use std::os::unix::fs::symlink;
use std::time::{Duration, UNIX_EPOCH};
use std::{fs, str};
use test_script::{bytes, number, word};

/// When the bytes of a file changed that is put there, in seconds since 1970.
const PUT_AT: u64 = 1_000_000_000;

fn set_age(rt: &HostRuntime, path: &str, seconds: u64) -> Result<()> {
    let modified = UNIX_EPOCH
        .checked_add(Duration::from_secs(seconds))
        .context("a moment")?;
    let file = OpenOptions::new().write(true).open(rt, path)?;
    file.set_times(FileTimes::new().set_modified(modified))?;
    Ok(())
}

fn put(rt: &HostRuntime, path: &str, text: &str) -> Result<()> {
    let text = bytes(rt.alloc(), text)?;
    fs::write(rt, path, text.as_slice())?;
    set_age(rt, path, PUT_AT)
}

/// The text of a file.
pub fn show(rt: &HostRuntime, path: &str) -> Result<()> {
    match fs::read(rt, path) {
        Ok(bytes) => {
            let text = str::from_utf8(bytes.as_slice()).unwrap_or("no text");
            println!(rt; "show {path}: {text}")?;
        }
        Err(_) => println!(rt; "show {path}: none")?,
    }
    Ok(())
}

/// Does what the words say, where they are something that another program does.
pub fn other(rt: &HostRuntime, words: &[&str]) -> Result<bool> {
    let (path, second) = (word(words, 1), word(words, 2));
    match word(words, 0) {
        "mkdir" => fs::create_dir(rt, path)?,
        "put" => put(rt, path, second)?,
        "link" => symlink(rt, path, second)?,
        "alias" => fs::hard_link(rt, path, second)?,
        "age" => set_age(rt, path, number(words, 2)?)?,
        "gone" => fs::remove_file(rt, path)
            .or_else(|_| fs::remove_dir(rt, path))
            .unwrap_or(()),
        "show" => show(rt, path)?,
        _ => return Ok(false),
    }
    Ok(true)
}
