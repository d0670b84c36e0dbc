//! What an outbound file is, and how its name ends.
ghost use Rattle.std.specs.Prelude.{◌≡◌};
ghost use Rattle.bso_outbound.specs.Kinds.{ending};
ghost use Rattle.bso_outbound.specs.Reading.{Reads};

use ftn_addr::is_same_word;
use node_model::Flavour;

/// What an outbound file is (FTS-5005).
#[derive(Clone, Copy, Debug, PartialEq, Eq)]
pub enum Kind {
    /// A flow file: a list of files to send.
    Flow(Flavour),
    /// A packet of netmail.
    Mail(Flavour),
    /// A file request.
    Request,
}

/// All kinds.
const KINDS: [Kind; 11] = [
    Kind::Flow(Flavour::Immediate),
    Kind::Flow(Flavour::Crash),
    Kind::Flow(Flavour::Direct),
    Kind::Flow(Flavour::Normal),
    Kind::Flow(Flavour::Hold),
    Kind::Mail(Flavour::Immediate),
    Kind::Mail(Flavour::Crash),
    Kind::Mail(Flavour::Direct),
    Kind::Mail(Flavour::Normal),
    Kind::Mail(Flavour::Hold),
    Kind::Request,
];

/// How the name of such a file ends: a dot and three letters.
pub fn ending_of(kind: Kind) -> [u8; 4]
    ensures { result ≡ ending kind }
{
    match kind {
        Kind::Flow(Flavour::Immediate) => *b".ilo",
        Kind::Flow(Flavour::Crash) => *b".clo",
        Kind::Flow(Flavour::Direct) => *b".dlo",
        Kind::Flow(Flavour::Normal) => *b".flo",
        Kind::Flow(Flavour::Hold) => *b".hlo",
        Kind::Mail(Flavour::Immediate) => *b".iut",
        Kind::Mail(Flavour::Crash) => *b".cut",
        Kind::Mail(Flavour::Direct) => *b".dut",
        Kind::Mail(Flavour::Normal) => *b".out",
        Kind::Mail(Flavour::Hold) => *b".hut",
        Kind::Request => *b".req",
    }
}

/// What a file is whose name ends so.
pub(crate) fn kind_of(end: &[u8]) -> Option<Kind>
    ensures { Reads (λ _. Unit {0}) ending end.now result }
{
    for kind in &KINDS {
        if is_same_word(end, &ending_of(*kind)) {
            return Some(*kind);
        }
    }
    None
}
