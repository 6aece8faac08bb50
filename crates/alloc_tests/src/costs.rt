//! How many device calls the allocator makes.

use crate::counting::Counting;
use crate::images::{made, open, take_each};
use disk_memory::MemoryHost;
use std::test::Fail;

#[test]
fn syncs_are_few(rt: HostRuntime) -> Result<(), Fail> {
    let alloc = rt.alloc();
    let mut host = Counting {
        inner: MemoryHost::new(alloc, false)?,
        reads: 0,
        writes: 0,
        syncs: 0,
    };
    let file = made(alloc, &mut host, 16384 * 4096, 12)?;
    let mut clusters = open(alloc, &mut host, file)?;
    // The test's own read of the image, the refcount table, and its one block.
    assert_eq!(rt; host.reads, 3);
    host.syncs = 0;
    take_each(&mut host, &mut clusters, 16384)?;
    assert!(rt; host.syncs <= 40);
    Ok(())
}
