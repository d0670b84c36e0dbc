//! Small texts by script: each line of standard input is a call, and is printed with what came back.
//!
//! A call takes the text so far, with what stands behind the call's name at its end. A comment begins a script anew, with no
//! text, no shares and an empty ledger. `own` below is the node 2:5020/1042@fidonet.
//!
//! ```text
//! # A domain has 1 to 32 of its bytes.     printed as it stands
//! | address 2:1/1                          adds a line to the text, and prints nothing, as all lines down to `refused`
//! put 64 0A                                adds these bytes to the text so many times
//! lower FidoNet#                           makes the text of these letters, in lower case
//! number 5020                              adds the digits of that number
//! reserve 3                                makes room for so many bytes more
//! drop 8                                   drops so many bytes at the front
//! truncate 4                               drops all but so many at the front
//! share /ftn/files|a.zip|b.zip             a folder, and its files that may be requested
//! queue 7 1 a.txt                          a record of 2:5047/13: the file of that number and flavour; files have 5 bytes
//! done 7                                   it is sent
//! mark 2 c.txt                             4 of the 10 bytes of that part have come
//! received 3 one                           that file is received
//! refused three                            that file is refused
//! text                                     the text, by a copy of it
//! digits 5020                              the number of these digits
//! line a\x0d\x0ab                          the first line, and what stands behind it
//! words a b                                the words
//! first_word a b                           the first word, and what stands behind it
//! trimmed  a                               the text without blanks at its ends
//! domain FidoNet                           whether it is a domain
//! same_word Node nODE                      whether these two words are the same
//! address 5047/13.7                        the address that own reads, by its copy; how it is written; whether the copy is the
//!                                          same. Or the fault
//! copy_key a.txt 5                         a copy of the key of a file of that size, and whether that is the same
//! limits                                   the most records of a ledger; the least stride of marks, and how many a file has
//! plain my file.zip                        the name made plain; behind the number of its receipt: `numbered 42 my file.zip`
//! own_name az09.-                          the name of an own file, or none
//! command |call|2:5020/1                   the command that the words behind the bars are, and the word behind it
//! flow ^/a/x.zip\x0a~/a/y.zip              what each line of a flow file asks for
//! request a.zip\x0ab.zip                   the files that a request gets of the shares
//! hmac \x0b 16 Hi There                    the digest by a key of so many times these bytes
//! offer OPT CRAM-MD5-00                    the kind of an offer, and its challenge
//! answer Jefe CHALLENGE                    the answer by a password
//! check Jefe ANSWER CHALLENGE              whether that answer passes
//! offered                                  the offer of a challenge of 16 bytes
//! fault iport x                            why settings are refused
//! settings texts                           what settings have: `texts`, `numbers`, `addresses`, `nodes`, `names`, `shares`, or
//!                                          a node, as `settings 2:5047/13`
//! ending flow crash                        how the name of such a file ends: `flow` or `mail` and a flavour, or `request`
//! path out 2:5020/1042.7 flow crash        the path of that file in the outbound `out`, where the zone 2 is the default one
//! zone_folder out 46                       the folder of a zone
//! whose out 2:5020/1042 out 139c0412.clo   for whom a file is, and what: of a base and a node, in a folder, of a name
//! file out 2:5020/1042 out 139c0412.clo    its path, and for whom it is
//! above /ftn/out                           the folder above a base, and the base's name there
//! zone outbound.02e                        the zone of a folder beside the base `outbound`
//! points 139c0412.pnt                      the node of a folder of points
//! path_in outbound /ftn                    the path of a name in a folder
//! place 0002139c04120007                   the place that 16 digits spell
//! place_in 2:5020/1042 fidonet             the place of an address in that domain
//! places 2:5020/1042.7 2:5020/1042         the addresses of these places, in order
//! list                                     the lines of the ledger
//! took 2:5020/1042 3 1 2 0 5               the line of an outbound that was taken in; of a marked one: `marked 2:5020/1042`
//! ```
//!
//! A `\x` and two digits are a byte, in a text, a name and a challenge, and in what is printed. There a `\` is `\x5c`.
#![tactic(auto)]

mod addresses;
mod byte_lists;
mod calls;
mod files;
mod ledger;
mod outbound;
mod passwords;
mod places;
mod settings;
mod shown;
mod stage;

use anyhow::Result;
use calls::call;
use stage::Stage;
use std::io;
use test_script::words_of;

// Plays one line.
fn play(rt: &HostRuntime, stage: &mut Stage, line: &str) -> Result<()> {
    if line.starts_with("#") {
        *stage = Stage::new(rt.alloc());
        println!(rt; "{line}")?;
        return Ok(());
    }
    let words = words_of(rt.alloc(), line)?;
    if line.is_empty() || stage.adds(rt.alloc(), line, words.as_slice())? {
        return Ok(());
    }
    let answer = call(rt.alloc(), stage, line, words.as_slice())?;
    println!(rt; "{line}: {answer}")?;
    Ok(())
}

fn main(rt: HostRuntime) -> Result<()> {
    let text = io::read_to_string(rt.alloc(), rt.reader())?;
    let mut stage = Stage::new(rt.alloc());
    for line in text.lines() {
        play(&rt, &mut stage, line)?;
    }
    Ok(())
}
