//! The words that name own files.
use anyhow::{Context, Result};
use disk_model::Name;
use test_script::word;

/// The name of an own file at a place.
pub fn name(words: &[&str], place: usize) -> Result<Name> {
    Name::new(word(words, place).as_bytes()).context("a name of an own file")
}
