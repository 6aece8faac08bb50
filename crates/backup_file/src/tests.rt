//! Tests of what a new file has in it.

use crate::contents::{source_bytes, target_bytes};
use crate::form::valid_form;
use std::alloc::{AllocError, Global};
use std::test::Fail;

fn word(bytes: &[u8], at: usize) -> u64 {
    let mut value = 0;
    for i in 0..8 {
        if let Some(byte) = bytes.get(at.saturating_add(i)) {
            value = value << 8 | u64::from(*byte);
        }
    }
    value
}

// A disk's file, of a size that proofs don't know: at a known one they would write its zeros out.
fn disk(alloc: Global, size: u64, cluster_bits: u32) -> Result<Vec<u8>, AllocError> {
    if !valid_form(size, cluster_bits) {
        return Ok(Vec::new(alloc));
    }
    source_bytes(alloc, size, cluster_bits, [7; 16])
}

// A backup's file, and the name of the file under it.
fn backup(alloc: Global, size: u64, cluster_bits: u32, name: &str) -> Result<Vec<u8>, AllocError> {
    if !valid_form(size, cluster_bits) || name.is_empty() || name.len() > 255 {
        return Ok(Vec::new(alloc));
    }
    target_bytes(alloc, size, cluster_bits, Some(name))
}

#[test]
fn forms_that_an_image_may_have(rt: HostRuntime) {
    assert!(rt; valid_form(512, 9));
    assert!(rt; valid_form(1 << 40, 16));
    assert!(rt; valid_form(1 << 40, 21));
    assert!(rt; valid_form(1 << 35, 9));
    assert!(rt; !valid_form((1 << 35) + 512, 9));
    assert!(rt; !valid_form((1 << 40) + 512, 16));
    assert!(rt; !valid_form(0, 16));
    assert!(rt; !valid_form(513, 16));
    assert!(rt; !valid_form(512, 8));
    assert!(rt; !valid_form(512, 22));
}

#[test]
fn a_disk_of_2_to_the_40_bytes_takes_four_clusters(rt: HostRuntime) -> Result<(), Fail> {
    let bytes = disk(rt.alloc(), 1 << 40, 16)?;
    assert!(rt; bytes.len() == 262144);
    assert!(rt; word(&bytes, 0) == 0x514649fb00000003);
    assert!(rt; word(&bytes, 24) == 1 << 40);
    assert!(rt; word(&bytes, 40) == 196608);
    assert!(rt; word(&bytes, 48) == 65536);
    assert!(rt; word(&bytes, 65536) == 131072);
    assert!(rt; word(&bytes, 131072) == 0x0001000100010001);
    assert!(rt; word(&bytes, 131080) == 0);
    Ok(())
}

#[test]
fn a_backup_names_the_file_under_it(rt: HostRuntime) -> Result<(), Fail> {
    let bytes = backup(rt.alloc(), 1 << 20, 12, "diskdisk")?;
    assert!(rt; word(&bytes, 8) == 208);
    assert!(rt; word(&bytes, 184) == 0xe2792aca00000005);
    assert!(rt; word(&bytes, 192) == 0x71636f7732000000);
    assert!(rt; word(&bytes, 200) == 0);
    assert!(rt; word(&bytes, 208) == 0x6469736b6469736b);
    Ok(())
}
