//! Texts by name, and what is told as their names.
use binkp_args::unescape;
use ftn_addr::{Bytes, Failed, NoMemory};
use std::alloc::{AllocError, Global};
use std::test::Fail;

#[derive(Drop)]
struct Text {
    name: Bytes,
    bytes: Bytes,
}

/// The texts of a script.
#[derive(Drop)]
pub struct Texts {
    alloc: Global,
    all: Vec<Text>,
}

/// Adds bytes to a text: printable ASCII as it stands, every other byte as `\x` and two digits.
pub fn push_bytes(alloc: Global, bytes: &[u8], out: &mut String) -> Result<(), AllocError> {
    for byte in bytes {
        if byte.is_ascii_graphic() || *byte == b' ' {
            out.push(char::from(*byte))?;
        } else {
            let shown = format!(in alloc; "\\x{byte:02x}")?;
            out.push_str(shown.as_str())?;
        }
    }
    Ok(())
}

/// Each of these bytes.
pub fn slices(alloc: Global, pieces: &[Bytes]) -> Result<Vec<&[u8]>, Fail> {
    let mut all = Vec::new(alloc);
    for piece in pieces {
        all.push(piece.as_slice())?;
    }
    Ok(all)
}

impl Texts {
    pub fn new(alloc: Global) -> Texts {
        Texts {
            alloc,
            all: Vec::new(alloc),
        }
    }

    /// The bytes of a word: of the text of that name behind a `$`, else its own, in which `\x` and two digits stand for a byte.
    pub fn piece(&self, word: &str) -> Result<Bytes, Fail> {
        let Some(name) = word.strip_prefix("$") else {
            let mut found = Bytes::new(self.alloc);
            unescape(self.alloc, word.as_bytes(), &mut found)?;
            return Ok(found);
        };
        for text in &self.all {
            if text.name.as_slice() == name.as_bytes() {
                return Ok(text.bytes.copy(self.alloc)?);
            }
        }
        Err(Failed.into())
    }

    /// The bytes of each word.
    pub fn pieces(&self, words: &[&str]) -> Result<Vec<Bytes>, Fail> {
        let mut all = Vec::new(self.alloc);
        for word in words {
            all.push(self.piece(word)?)?;
        }
        Ok(all)
    }

    /// Adds the bytes of all words, one behind the other.
    pub fn push_all(&self, words: &[&str], all: &mut Bytes) -> Result<(), Fail> {
        for word in words {
            let piece = self.piece(word)?;
            all.push_slice(piece.as_slice())?;
        }
        Ok(())
    }

    /// The bytes of all words, one behind the other.
    pub fn joined(&self, words: &[&str]) -> Result<Bytes, Fail> {
        let mut all = Bytes::new(self.alloc);
        self.push_all(words, &mut all)?;
        Ok(all)
    }

    /// Names a text of these words.
    pub fn define(&mut self, name: &str, words: &[&str]) -> Result<(), Fail> {
        let bytes = self.joined(words)?;
        let name = Bytes::from_slice(self.alloc, name.as_bytes())?;
        self.all.push(Text { name, bytes })?;
        Ok(())
    }

    // The first text that these bytes begin with.
    fn first_in(&self, bytes: &[u8]) -> Option<&Text> {
        for text in &self.all {
            if !text.bytes.is_empty() && bytes.starts_with(text.bytes.as_slice()) {
                return Some(text);
            }
        }
        None
    }

    /// What was told: at each place the name of the first text that stands there, else the byte.
    pub fn push_told(&self, told: &[u8], out: &mut String) -> Result<(), Fail> {
        let mut rest = told;
        let mut is_plain = false;
        for _ in 0..told.len() {
            let Some((first, behind)) = rest.split_first() else {
                break;
            };
            if let Some(text) = self.first_in(rest) {
                out.push_str(" $")?;
                push_bytes(self.alloc, text.name.as_slice(), out)?;
                rest = rest.get(text.bytes.len()..).unwrap_or(&[]);
                is_plain = false;
            } else {
                out.push_str(if is_plain { "" } else { " " })?;
                push_bytes(self.alloc, &[*first], out)?;
                rest = behind;
                is_plain = true;
            }
        }
        Ok(())
    }
}
