//! Whom a node calls next, of what waits and what was tried.
use call_sched::{Next, PAUSE, Try, Wanted, next_call};
use ftn_addr::{Addr, Bytes, NoMemory};
use node_model::Flavour;
use std::alloc::Global;
use std::test::Fail;

// The node of that number, and its point 1 where the number is over 1,000.
fn addr(alloc: Global, node: u16) -> Result<Addr, NoMemory> {
    Ok(Addr {
        zone: 2,
        net: 5020,
        node: node % 1000,
        point: node / 1000,
        domain: Bytes::from_slice(alloc, b"fidonet")?,
    })
}

// What waits for these nodes, all callable.
fn waiting(alloc: Global, files: &[(u16, Flavour)]) -> Result<Vec<Wanted>, Fail> {
    let mut wanted = Vec::new(alloc);
    for (node, flavour) in files {
        wanted.push(Wanted {
            addr: addr(alloc, *node)?,
            flavour: *flavour,
            callable: true,
        })?;
    }
    Ok(wanted)
}

// The calls of these nodes at these moments.
fn made(alloc: Global, calls: &[(u16, u64)]) -> Result<Vec<Try>, Fail> {
    let mut tries = Vec::new(alloc);
    for (node, at) in calls {
        tries.push(Try {
            addr: addr(alloc, *node)?,
            at: *at,
        })?;
    }
    Ok(tries)
}

fn next(
    alloc: Global,
    now: u64,
    files: &[(u16, Flavour)],
    calls: &[(u16, u64)],
) -> Result<Next, Fail> {
    let wanted = waiting(alloc, files)?;
    let tries = made(alloc, calls)?;
    Ok(next_call(now, wanted.as_slice(), tries.as_slice()))
}

#[test]
fn a_node_is_called_again_after_five_minutes(rt: HostRuntime) -> Result<(), Fail> {
    let alloc = rt.alloc();
    let both = [(1, Flavour::Crash), (2, Flavour::Normal)];
    let one = [(1, Flavour::Crash)];
    let tried = [(1, 900)];
    assert_eq!(rt; PAUSE, 300);
    assert_eq!(rt; next(alloc, 1000, &both, &tried)?, Next::Call(1));
    assert_eq!(rt; next(alloc, 1000, &one, &tried)?, Next::WaitUntil(1200));
    assert_eq!(rt; next(alloc, 1199, &one, &tried)?, Next::WaitUntil(1200));
    assert_eq!(rt; next(alloc, 1200, &one, &tried)?, Next::Call(0));
    assert_eq!(rt;
        next(alloc, 1200, &[(1, Flavour::Hold)], &tried)?,
        Next::Nothing
    );
    assert_eq!(rt; next(alloc, 1200, &[], &tried)?, Next::Nothing);
    Ok(())
}

// By flavour, then by the last call, then by address, then by place.
#[test]
fn the_most_urgent_is_the_first(rt: HostRuntime) -> Result<(), Fail> {
    let alloc = rt.alloc();
    let flavours = [
        (1, Flavour::Hold),
        (2, Flavour::Normal),
        (3, Flavour::Direct),
        (4, Flavour::Crash),
        (5, Flavour::Immediate),
    ];
    let normal = [
        (1004, Flavour::Normal),
        (4, Flavour::Normal),
        (3, Flavour::Normal),
        (3, Flavour::Normal),
    ];
    assert_eq!(rt; next(alloc, 1000, &flavours, &[])?, Next::Call(4));
    assert_eq!(rt; next(alloc, 1000, &flavours, &[(5, 900)])?, Next::Call(3));
    assert_eq!(rt; next(alloc, 1000, &normal, &[])?, Next::Call(2));
    assert_eq!(rt; next(alloc, 1000, &normal, &[(3, 1)])?, Next::Call(1));
    assert_eq!(rt;
        next(alloc, 1000, &normal, &[(3, 1), (4, 2)])?,
        Next::Call(0)
    );
    assert_eq!(rt;
        next(alloc, 1000, &normal, &[(3, 1), (4, 2), (1004, 3)])?,
        Next::Call(2)
    );
    Ok(())
}

// The last call of a node counts, wherever it stands among the calls.
#[test]
fn the_last_call_counts(rt: HostRuntime) -> Result<(), Fail> {
    let alloc = rt.alloc();
    let one = [(3, Flavour::Normal)];
    let two = [(3, Flavour::Normal), (4, Flavour::Direct)];
    for tried in [
        [(1, 5000), (3, 100), (3, 900), (9, 5000)],
        [(3, 900), (9, 5000), (1, 5000), (3, 100)],
    ] {
        assert_eq!(rt; next(alloc, 1199, &one, &tried)?, Next::WaitUntil(1200));
        assert_eq!(rt; next(alloc, 1200, &one, &tried)?, Next::Call(0));
        assert_eq!(rt; next(alloc, 1199, &two, &tried)?, Next::Call(1));
    }
    assert_eq!(rt; next(alloc, 299, &one, &[(3, 0)])?, Next::WaitUntil(300));
    assert_eq!(rt;
        next(alloc, 1000, &two, &[(3, 900), (4, 800)])?,
        Next::WaitUntil(1100)
    );
    assert_eq!(rt;
        next(alloc, 1000, &one, &[(3, u64::MAX - 1)])?,
        Next::WaitUntil(u64::MAX)
    );
    Ok(())
}

#[test]
fn without_a_host_nobody_is_called(rt: HostRuntime) -> Result<(), Fail> {
    let alloc = rt.alloc();
    let mut wanted = waiting(alloc, &[(2, Flavour::Normal)])?;
    wanted.push(Wanted {
        addr: addr(alloc, 1)?,
        flavour: Flavour::Crash,
        callable: false,
    })?;
    assert_eq!(rt; next_call(1000, wanted.as_slice(), &[]), Next::Call(0));
    assert_eq!(rt;
        next_call(1000, wanted.as_slice().get(1..).unwrap_or(&[]), &[]),
        Next::Nothing
    );
    Ok(())
}
