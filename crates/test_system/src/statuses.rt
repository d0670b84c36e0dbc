//! The line of each status.
use binkp_args::ArgFault;
use command_base::{Status, push_status, status_of};
use disk_model::Name;
use ftn_addr::{Bytes, NoMemory};
use mail_conf::{ConfCause, ConfFault};
use nodelist_comp::{ListCause, ListTextFault};
use session_core::{Cause, End};
use std::alloc::Global;
use std::test::Fail;

// The line that tells a status.
fn line_of(alloc: Global, status: &Status) -> Result<Bytes, NoMemory> {
    let mut line = Bytes::new(alloc);
    push_status(alloc, status, &mut line)?;
    Ok(line)
}

// The numbers stand in the README's table; a sysop's scripts read them.
#[test]
fn each_status_has_its_line(rt: HostRuntime) -> Result<(), Fail> {
    let alloc = rt.alloc();
    let name = Name::new(b"in.00000001").expect(&rt, "a name");
    let text = Bytes::from_slice(alloc, b"no mail, \\go")?;
    let mark = Bytes::from_slice(alloc, b"13b7000d.bsy")?;
    let cases: [(Status, u8, &[u8]); 20] = [
        (Status::Done, 0, b""),
        (Status::Usage, 1, b"status 1 Usage\n"),
        (Status::DiskFault(9), 3, b"status 3 DiskFault 9\n"),
        (Status::LedgerBad(16), 4, b"status 4 LedgerBad 16\n"),
        (Status::LedgerFull, 5, b"status 5 LedgerFull\n"),
        (Status::LineFault, 6, b"status 6 LineFault\n"),
        (Status::Dropped, 7, b"status 7 Dropped\n"),
        (Status::Quiet, 8, b"status 8 Quiet\n"),
        (
            Status::PeerError(text),
            9,
            b"status 9 PeerError no\\x20mail\\x2c\\x20\\x5cgo\n",
        ),
        (
            Status::PeerError(Bytes::new(alloc)),
            9,
            b"status 9 PeerError \n",
        ),
        (Status::PeerBusy, 10, b"status 10 PeerBusy\n"),
        (Status::BadPassword, 11, b"status 11 BadPassword\n"),
        (Status::Endless, 13, b"status 13 Endless\n"),
        (Status::Marked(mark), 14, b"status 14 Marked 13b7000d.bsy\n"),
        (Status::NotFound, 15, b"status 15 NotFound\n"),
        (Status::OutFault, 16, b""),
        (Status::NoMemory, 17, b"status 17 NoMemory\n"),
        (
            Status::FileBad(name),
            18,
            b"status 18 FileBad in.00000001\n",
        ),
        (Status::NoFile, 20, b"status 20 NoFile\n"),
        (Status::TurnedAway, 21, b"status 21 TurnedAway\n"),
    ];
    for (status, number, wanted) in &cases {
        assert_eq!(rt; status.number(), *number);
        assert_eq!(rt; line_of(alloc, status)?.as_slice(), *wanted);
    }
    Ok(())
}

#[test]
fn a_refused_frame_is_told_by_its_cause_and_number(rt: HostRuntime) -> Result<(), Fail> {
    let alloc = rt.alloc();
    let cases: [(Cause, &[u8]); 6] = [
        (Cause::OutOfTurn, b"status 12 Broke OutOfTurn 7\n"),
        (Cause::NotCalled, b"status 12 Broke NotCalled 7\n"),
        (Cause::Late, b"status 12 Broke Late 7\n"),
        (Cause::TooMuch, b"status 12 Broke TooMuch 7\n"),
        (
            Cause::Arg(ArgFault::MissingWord(3)),
            b"status 12 Broke MissingWord 7\n",
        ),
        (
            Cause::Arg(ArgFault::PastEnd),
            b"status 12 Broke PastEnd 7\n",
        ),
    ];
    for (cause, wanted) in &cases {
        let status = status_of(End::Broke(*cause, 7));
        assert_eq!(rt; line_of(alloc, &status)?.as_slice(), *wanted);
    }
    Ok(())
}

// The names stand in docs/settings.md.
#[test]
fn refused_settings_are_told_by_line_and_cause(rt: HostRuntime) -> Result<(), Fail> {
    let alloc = rt.alloc();
    let cases: [(ConfCause, &[u8]); 9] = [
        (ConfCause::UnknownWord, b"status 2 ConfBad 12 UnknownWord\n"),
        (ConfCause::MissingWord, b"status 2 ConfBad 12 MissingWord\n"),
        (ConfCause::BadAddress, b"status 2 ConfBad 12 BadAddress\n"),
        (ConfCause::BadNumber, b"status 2 ConfBad 12 BadNumber\n"),
        (ConfCause::Twice, b"status 2 ConfBad 12 Twice\n"),
        (ConfCause::NoAddress, b"status 2 ConfBad 12 NoAddress\n"),
        (ConfCause::NoText, b"status 2 ConfBad 12 NoText\n"),
        (ConfCause::TooLong, b"status 2 ConfBad 12 TooLong\n"),
        (ConfCause::NoMemory, b"status 2 ConfBad 12 NoMemory\n"),
    ];
    for (cause, wanted) in &cases {
        let fault = ConfFault {
            line: 12,
            cause: *cause,
        };
        let status = Status::ConfBad(fault);
        assert_eq!(rt; status.number(), 2);
        assert_eq!(rt; line_of(alloc, &status)?.as_slice(), *wanted);
    }
    Ok(())
}

// The names of the causes stand in docs/settings.md.
#[test]
fn refused_lists_are_told_by_line_and_cause(rt: HostRuntime) -> Result<(), Fail> {
    let alloc = rt.alloc();
    let cases: [(ListCause, &[u8]); 4] = [
        (ListCause::NoZone, b"status 19 ListBad 1 NoZone\n"),
        (ListCause::BadNumber, b"status 19 ListBad 1 BadNumber\n"),
        (
            ListCause::UnknownKeyword,
            b"status 19 ListBad 1 UnknownKeyword\n",
        ),
        (ListCause::TooMany, b"status 19 ListBad 1 TooMany\n"),
    ];
    for (cause, wanted) in &cases {
        let fault = ListTextFault {
            line: 1,
            cause: *cause,
        };
        let status = Status::ListBad(fault);
        assert_eq!(rt; status.number(), 19);
        assert_eq!(rt; line_of(alloc, &status)?.as_slice(), *wanted);
    }
    Ok(())
}
