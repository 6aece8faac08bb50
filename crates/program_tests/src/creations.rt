//! Runs of `create-source` and of `create-target`. What a new file has is written out here by hand, from the format.

use crate::image::{image, put, put_parts};
use crate::runs::{host_with, run_text};
use disk_memory::MemoryHost;
use std::alloc::{AllocError, Global};
use std::test::Fail;

/// What stands beside the file that is made.
const OTHER: &[u8] = b"another file";

const SOURCE: &str = "create-source s 16384 12 00112233445566778899aabbccddeeff";

const TARGET: &str = "create-target s 16384 12 base.qcow2";

/// The longest name of a file under a backup.
const LONG: &str = "0123456789abcde/0123456789abcde/0123456789abcde/0123456789abcde/\
    0123456789abcde/0123456789abcde/0123456789abcde/0123456789abcde/\
    0123456789abcde/0123456789abcde/0123456789abcde/0123456789abcde/\
    0123456789abcde/0123456789abcde/0123456789abcde/0123456789abcde";

/// Adds counts of 1 from a place on.
fn put_counts(image: &mut Vec<u8>, at: usize, count: usize) {
    for i in 0..count {
        put(image, at.saturating_add(i.saturating_mul(2)), b"\0\x01");
    }
}

#[test]
fn new_files_are_laid_out(rt: HostRuntime) -> Result<(), Fail> {
    let alloc = rt.alloc();
    // The words, the file's length, its parts, where its counts of 1 begin and how many there are, what is told of it.
    // In clusters of 512 bytes, 2^29 bytes take 2^20 clusters: their first level has 16384 entries in 256 clusters. A
    // cluster of the refcount table counts 64 * 256 clusters, so 129 of them count twice 2^20 and 1024. With two blocks
    // of 256 counts that makes 388 clusters.
    let cases: [(&str, usize, &str, usize, usize, &str); 5] = [
        (
            "create-source t 1099511627776 16 00112233445566778899aabbccddeeff",
            262144,
            "0:514649fb00000003 20:000000100000010000000000 36:000008000000000000030000 \
             48:000000000001000000000001 96:0000000400000070 112:52424b3100000028 \
             120:00112233445566778899aabbccddeeff 65536:0000000000020000",
            131072,
            4,
            "kind source/size 1099511627776/cluster 65536/id 00112233445566778899aabbccddeeff/epoch 0/",
        ),
        (
            "create-source t 536870912 9 FFEEDDCCBBAA99887766554433221100",
            198656,
            "0:514649fb00000003 20:000000090000000020000000 36:000040000000000000010800 \
             48:000000000000020000000081 96:0000000400000070 112:52424b3100000028 \
             120:ffeeddccbbaa99887766554433221100 512:00000000000104000000000000010600",
            66560,
            388,
            "kind source/size 536870912/cluster 512/id ffeeddccbbaa99887766554433221100/epoch 0/",
        ),
        (
            "create-source t 512 9 00112233445566778899aabbccddeeff",
            2048,
            "0:514649fb00000003 20:000000090000000000000200 36:000000010000000000000600 \
             48:000000000000020000000001 96:0000000400000070 112:52424b3100000028 \
             120:00112233445566778899aabbccddeeff 512:0000000000000400",
            1024,
            4,
            "kind source/size 512/cluster 512/id 00112233445566778899aabbccddeeff/epoch 0/",
        ),
        (
            "create-target t 16384 12 base.qcow2",
            16384,
            "0:514649fb0000000300000000000000d00000000a 20:0000000c0000000000004000 \
             36:000000010000000000003000 48:000000000000100000000001 96:0000000400000070 112:52424b3100000040 \
             120:00000001000000000000000000001000 184:e2792aca0000000571636f7732 208:626173652e71636f7732 \
             4096:0000000000002000",
            8192,
            4,
            "kind target/size 16384/cluster 4096/state blank/",
        ),
        (
            "create-target t 16384 12",
            16384,
            "0:514649fb00000003 20:0000000c0000000000004000 36:000000010000000000003000 \
             48:000000000000100000000001 96:0000000400000070 112:52424b3100000040 \
             120:00000001000000000000000000001000 4096:0000000000002000",
            8192,
            4,
            "kind target/size 16384/cluster 4096/state blank/",
        ),
    ];
    for (words, length, parts, counts, clusters, told) in cases {
        let mut file = vec![in alloc; 0u8; length]?;
        put_parts(alloc, &mut file, parts)?;
        put_counts(&mut file, counts, clusters);
        let run = run_text(alloc, host_with(alloc, &[("o", OTHER)], &[])?, words)?;
        assert_eq!(rt; run.status, 0);
        assert_eq!(rt; run.host.printed(), b"made t\n".as_slice());
        assert!(rt; run.host.file("t") == Some(file.as_slice()), "{words}");
        assert_eq!(rt; run.host.file("o"), Some(OTHER));
        let run = run_text(alloc, host_with(alloc, &[("t", &file)], &[])?, "info t")?;
        assert_eq!(rt; run.status, 0);
        assert!(rt; run.has_printed(alloc, told)?, "{words}");
    }
    Ok(())
}

#[test]
fn a_backup_takes_a_long_name(rt: HostRuntime) -> Result<(), Fail> {
    let alloc = rt.alloc();
    let mut file = vec![in alloc; 0u8; 2048]?;
    put_parts(
        alloc,
        &mut file,
        "0:514649fb0000000300000000000000d0000000ff 20:000000090000000000000600 \
         36:000000010000000000000600 48:000000000000020000000001 96:0000000400000070 112:52424b3100000040 \
         120:00000001000000000000000000000200 184:e2792aca0000000571636f7732 512:0000000000000400",
    )?;
    put(&mut file, 208, LONG.as_bytes());
    put_counts(&mut file, 1024, 4);
    let words = format!(in alloc; "create-target t 1536 9 {LONG}")?;
    let run = run_text(alloc, host_with(alloc, &[], &[])?, words.as_str())?;
    assert_eq!(rt; run.status, 0);
    assert_eq!(rt; run.host.printed(), b"made t\n".as_slice());
    assert!(rt; run.host.file("t") == Some(file.as_slice()));
    Ok(())
}

#[test]
fn files_that_are_there_stay(rt: HostRuntime) -> Result<(), Fail> {
    let alloc = rt.alloc();
    let cases: [(&str, u8, &str); 7] = [
        (
            "create-source t 68719476736 9 00112233445566778899aabbccddeeff",
            1,
            "words/",
        ),
        ("create-target t 68719476736 9 s", 1, "words/"),
        (
            "create-source s 16384 12 00112233445566778899aabbccddeeff",
            8,
            "exists s/",
        ),
        (
            "create-source s 512 9 00112233445566778899aabbccddeeff",
            8,
            "exists s/",
        ),
        ("create-target s 16384 12", 8, "exists s/"),
        ("create-target s 512 9 s", 8, "exists s/"),
        ("create-target o 512 9 s", 8, "exists o/"),
    ];
    let made = run_text(alloc, host_with(alloc, &[], &[])?, SOURCE)?;
    let source = made.host.file("s").unwrap_or(b"");
    assert_eq!(rt; source.len(), 16384);
    for (words, status, printed) in cases {
        let host = host_with(alloc, &[("s", source), ("o", OTHER)], &[])?;
        let run = run_text(alloc, host, words)?;
        assert_eq!(rt; run.status, status);
        assert!(rt; run.has_printed(alloc, printed)?, "{words}");
        assert!(rt; run.host.file("s") == Some(source));
        assert_eq!(rt; run.host.file("o"), Some(OTHER));
        assert_eq!(rt; run.host.file("t"), None);
    }
    Ok(())
}

#[test]
fn a_new_disk_is_written_and_read(rt: HostRuntime) -> Result<(), Fail> {
    let alloc = rt.alloc();
    let script = b"write 4095 aabb\nread 4094 4\nquit\n";
    let made = run_text(alloc, host_with(alloc, &[("t", script)], &[])?, SOURCE)?;
    assert_eq!(rt; made.status, 0);
    let run = run_text(alloc, made.host, "replay s t")?;
    assert_eq!(rt; run.status, 0);
    assert!(rt; run.has_printed(alloc, "made s/ok/data 00aabb00/ok/")?);
    let run = run_text(alloc, run.host, "info s")?;
    assert_eq!(rt; run.status, 0);
    assert!(rt;
        run.host.printed().ends_with(
            b"ok\nkind source\nsize 16384\ncluster 4096\nid 00112233445566778899aabbccddeeff\nepoch 0\n"
        )
    );
    Ok(())
}

/// A host with three files, whose calls of these numbers fail.
fn host_of_three(alloc: Global, image: &[u8], failing: &[u64]) -> Result<MemoryHost, AllocError> {
    host_with(
        alloc,
        &[("o", OTHER), ("base.qcow2", OTHER), ("i", image)],
        failing,
    )
}

/// Whether the three files are as they were.
fn keeps_three(host: &MemoryHost, image: &[u8]) -> bool {
    host.file("o") == Some(OTHER)
        && host.file("base.qcow2") == Some(OTHER)
        && host.file("i") == Some(image)
}

#[test]
fn each_failed_call_ends_the_run(rt: HostRuntime) -> Result<(), Fail> {
    let alloc = rt.alloc();
    let empty = image(alloc)?;
    for words in [SOURCE, TARGET, "info i"] {
        let whole = run_text(alloc, host_of_three(alloc, &empty, &[])?, words)?;
        assert_eq!(rt; whole.status, 0);
        for call in 1..whole.host.calls().saturating_add(1) {
            let run = run_text(alloc, host_of_three(alloc, &empty, &[call])?, words)?;
            assert_eq!(rt; run.status, 3, "at {call}");
            assert!(rt; run.host.printed().ends_with(b"device\n"), "at {call}");
            assert!(rt; keeps_three(&run.host, &empty), "at {call}");
            if run.host.printed().starts_with(b"made") {
                assert!(rt; run.host.file("s") == whole.host.file("s"));
            }
            let silent = host_of_three(alloc, &empty, &[call, call.saturating_add(1)])?;
            let run = run_text(alloc, silent, words)?;
            assert_eq!(rt; run.status, 3, "at {call}");
            assert!(rt; !run.host.printed().ends_with(b"\n"), "at {call}");
            assert!(rt; keeps_three(&run.host, &empty), "at {call}");
        }
    }
    Ok(())
}

#[test]
fn a_report_that_fails_keeps_the_status(rt: HostRuntime) -> Result<(), Fail> {
    let alloc = rt.alloc();
    let cases: [(&str, u8, &[u8]); 5] = [
        ("info", 1, b"words\n"),
        ("info nofile", 2, b"file nofile Missing\n"),
        ("info o", 2, b"file o Short\n"),
        (
            "create-source o 512 9 00112233445566778899aabbccddeeff",
            8,
            b"exists o\n",
        ),
        ("create-target o 512 9", 8, b"exists o\n"),
    ];
    for (words, status, line) in cases {
        let whole = run_text(alloc, host_with(alloc, &[("o", OTHER)], &[])?, words)?;
        assert_eq!(rt; whole.status, status);
        assert_eq!(rt; whole.host.printed(), line);
        let calls = whole.host.calls();
        for call in 1..calls.saturating_add(1) {
            let run = run_text(alloc, host_with(alloc, &[("o", OTHER)], &[call])?, words)?;
            assert_eq!(rt; run.host.file("o"), Some(OTHER));
            if run.status == 3 {
                assert_eq!(rt; run.host.printed(), b"device\n".as_slice());
                assert!(rt; call < calls);
            } else {
                assert_eq!(rt; run.status, status);
                assert!(rt; line.starts_with(run.host.printed()));
            }
        }
    }
    Ok(())
}

#[test]
fn a_new_file_survives_a_crash(rt: HostRuntime) -> Result<(), Fail> {
    let alloc = rt.alloc();
    for words in [SOURCE, TARGET] {
        let host = host_with(alloc, &[("o", OTHER)], &[])?;
        assert!(rt; host.keeps_calls());
        let before = host.moments();
        let run = run_text(alloc, host, words)?;
        assert_eq!(rt; run.status, 0);
        assert!(rt; run.host.keeps_calls());
        let moments = run.host.moments();
        assert!(rt; moments > before);
        for moment in 0..moments {
            for choice in 0..8 {
                let left = run.host.pick_outcome(moment, choice)?;
                if moment < before {
                    assert_eq!(rt; left.file("s"), None);
                } else {
                    assert_eq!(rt; left.file("o"), Some(OTHER));
                    assert!(rt; left.file("s").is_some());
                }
                if moment == before {
                    assert_eq!(rt; left.file("s"), Some([].as_slice()));
                }
                if moment == moments - 1 {
                    assert!(rt; left.file("s") == run.host.file("s"), "choice {choice}");
                }
            }
        }
    }
    Ok(())
}
