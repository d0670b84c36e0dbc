use ftn_addr::{Addr, Bytes, FileKey};

/// What a command frame says (FTS-1026).
#[derive(Debug, PartialEq, Eq, Drop)]
pub enum Command {
    /// M_NUL: a text, as `SYS My System`.
    Nul(Bytes),
    /// M_ADR: the sender's addresses, one at least.
    Adr(Vec<Addr>),
    /// M_PWD: a password, `-` for none, or a CRAM answer.
    Pwd(Bytes),
    /// M_FILE: a file that is offered, and the offset in bytes from which its data comes.
    File(FileKey, u64),
    /// M_OK: the password was accepted, with a text.
    Accept(Bytes),
    /// M_EOB: nothing more is offered.
    Eob,
    /// M_GOT: the file is received, or isn't wanted.
    Got(FileKey),
    /// M_ERR: a fault, with its text.
    Err(Bytes),
    /// M_BSY: the other side is busy, with a text.
    Bsy(Bytes),
    /// M_GET: the file is wanted from this offset in bytes.
    Get(FileKey, u64),
    /// M_SKIP: the file is to be offered in another session.
    Skip(FileKey),
    /// A command of another number, which is passed over.
    Other(u8),
}
