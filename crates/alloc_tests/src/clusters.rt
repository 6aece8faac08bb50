//! Clusters of an image in memory are handed out.

use crate::images::{made, open, settle, take, take_run, top_up};
use disk_memory::MemoryHost;
use std::test::Fail;

// Of a disk of 65,536 bytes in clusters of 512: the first level is cluster 3, and clusters are fresh from 4 on. A block counts 256.
#[test]
fn clusters_are_handed_out_upwards(rt: HostRuntime) -> Result<(), Fail> {
    let alloc = rt.alloc();
    let mut host = MemoryHost::new(alloc, false)?;
    let file = made(alloc, &mut host, 65536, 9)?;
    let mut clusters = open(alloc, &mut host, file)?;
    let room = clusters.room();
    assert_eq!(rt; room, 64 * 256 - 4 - 63);
    top_up(&mut host, &mut clusters, 3)?;
    assert_eq!(rt; clusters.ready(), 3);
    assert_eq!(rt; clusters.room(), room);
    assert_eq!(rt; take(&mut host, &mut clusters)?, 4);
    assert_eq!(rt; take(&mut host, &mut clusters)?, 5);
    assert_eq!(rt; take_run(&mut host, &mut clusters, 200)?, 7);
    assert_eq!(rt; take_run(&mut host, &mut clusters, 200)?, 257);
    assert_eq!(rt; take(&mut host, &mut clusters)?, 6);
    assert_eq!(rt; clusters.room(), room - 3 - 400 - 49);
    settle(&mut host, &mut clusters)
}
