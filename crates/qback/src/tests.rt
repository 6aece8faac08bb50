//! A test of what a real file reads at and past its end.

use crate::real::RealDepot;
use disk_model::{Depot, Failed, Made};
use std::test::Fail;

// Makes a file of three bytes, and reads from its first, from its last and past its end. It is never synced, so it goes
// with its depot.
fn make_and_read(depot: &mut impl Depot, outs: &mut [[u8; 8]; 3]) -> Result<(), Failed> {
    let Made::New(file) = depot.make("three")? else {
        return Err(Failed);
    };
    depot.write_at(file, 0, b"abc")?;
    depot.read_at(file, 0, &mut outs[0])?;
    depot.read_at(file, 2, &mut outs[1])?;
    depot.read_at(file, 5, &mut outs[2])
}

#[test]
fn zeros_follow_a_file(rt: HostRuntime) -> Result<(), Fail> {
    let mut depot = RealDepot::new(&rt, rt.alloc())?;
    let mut outs = [[1; 8]; 3];
    assert_eq!(rt; make_and_read(&mut depot, &mut outs), Ok(()));
    assert_eq!(rt; outs, [*b"abc\0\0\0\0\0", *b"c\0\0\0\0\0\0\0", [0; 8]]);
    Ok(())
}
