//! What the program tells of itself.

/// The version of the program. The one of the greeting (FTS-1026, `VER`) is its own.
const VERSION: &str = "0.2.0";

const HELP: &str = "binkp carries files between FidoNet nodes by binkp/1.0, and loses none.

    binkp DIR serve          answers who calls, and calls whom it has mail for, until a file `stop` stands in DIR
    binkp DIR answer         answers the caller on standard input and output
    binkp DIR call ADDR      calls a node at its host
    binkp DIR take           takes the outbound in
    binkp DIR list           prints what waits to be sent, and what came in part
    binkp DIR compile FILE   puts a nodelist and its index into DIR
    binkp DIR lookup ADDR    prints how the nodelist reaches a node
    binkp trial COUNT START  sends files between two nodes in memory, and prints how many came
    binkp --help             prints this
    binkp --version          prints the version

DIR has the settings, binkp.conf, and all that the program keeps. What comes of a
command stands on standard error, and in the exit status:

    0 Done          6 LineFault    12 Broke      18 FileBad
    1 Usage         7 Dropped      13 Endless    19 ListBad
    2 ConfBad       8 Quiet        14 Marked     20 NoFile
    3 DiskFault     9 PeerError    15 NotFound   21 TurnedAway
    4 LedgerBad    10 PeerBusy     16 OutFault  100 no random bytes
    5 LedgerFull   11 BadPassword  17 NoMemory  101 DIR is in use

The manual: man binkp, man binkp.conf; what to do at each status: docs/store.md.
";

/// Tells on standard output what the word asks for. Whether it asks for something that is told so.
///
/// # Errors
/// Standard output refused it.
pub fn tell(rt: &HostRuntime, word: &str) -> std::io::Result<bool> {
    match word {
        "--help" => print!(rt; "{HELP}")?,
        "--version" => println!(rt; "binkp {VERSION}")?,
        _ => return Ok(false),
    }
    Ok(true)
}
