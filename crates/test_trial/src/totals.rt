//! What trials come to.
use node_trial::{Totals, Trial};
use std::test::Fail;

#[test]
fn all_of_a_hundred_files_arrive(rt: HostRuntime) -> Result<(), Fail> {
    let alloc = rt.alloc();
    let want = Totals {
        files: 100,
        bytes: 503_388,
        sessions: 33,
        received: 100,
        live: 0,
    };
    for _ in 0..2 {
        assert_eq!(rt; Trial::run(alloc, 100, 1)?, want);
    }
    Ok(())
}

#[test]
fn no_file_takes_no_session(rt: HostRuntime) -> Result<(), Fail> {
    let want = Totals {
        files: 0,
        bytes: 0,
        sessions: 0,
        received: 0,
        live: 0,
    };
    assert_eq!(rt; Trial::run(rt.alloc(), 0, 1)?, want);
    Ok(())
}
