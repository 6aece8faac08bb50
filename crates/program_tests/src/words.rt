//! What words say.

use qback_top::{Task, read_words};
use std::alloc::{AllocError, Global};
use std::test::Fail;

fn text(bytes: &[u8]) -> &str {
    std::str::from_utf8(bytes).unwrap_or("not a text")
}

/// The task that the words say, as a text, and an empty one where they say none. A `|` stands between two words.
fn told(alloc: Global, words: &str) -> Result<String, AllocError> {
    let mut list = Vec::new(alloc);
    for word in words.split('|') {
        list.push(String::from_str(alloc, word)?)?;
    }
    match read_words(alloc, &list) {
        Err(_) => Ok(String::new(alloc)),
        Ok(task) => shown(alloc, &task),
    }
}

fn is_refused(alloc: Global, words: &str) -> Result<bool, AllocError> {
    Ok(told(alloc, words)?.is_empty())
}

fn shown(alloc: Global, task: &Task) -> Result<String, AllocError> {
    match task {
        Task::CreateSource {
            file,
            size,
            cluster_bits,
            disk,
        } => {
            let file = text(&file.items);
            format!(in alloc; "source {file} {size} {cluster_bits} {disk:?}")
        }
        Task::CreateTarget {
            file,
            size,
            cluster_bits,
            backing,
        } => {
            let file = text(&file.items);
            match backing {
                None => format!(in alloc; "target {file} {size} {cluster_bits}"),
                Some(name) => {
                    let under = text(&name.items);
                    format!(in alloc; "target {file} {size} {cluster_bits} over {under}")
                }
            }
        }
        Task::Info { file } => {
            let file = text(&file.items);
            format!(in alloc; "info {file}")
        }
        Task::Replay { file, script } => {
            let file = text(&file.items);
            let script = text(&script.items);
            format!(in alloc; "replay {file} {script}")
        }
    }
}

#[test]
fn words_say_tasks(rt: HostRuntime) -> Result<(), Fail> {
    let alloc = rt.alloc();
    // 2^35 bytes in clusters of 512 need 2^20 entries of the first level, which is the most.
    for (words, task) in [
        ("info|s", "info s"),
        ("replay|s|t", "replay s t"),
        (
            "create-source|s|512|9|000102030405060708090a0b0c0d0eff",
            "source s 512 9 [0, 1, 2, 3, 4, 5, 6, 7, 8, 9, 10, 11, 12, 13, 14, 255]",
        ),
        (
            "create-source|s|1099511627776|21|000102030405060708090A0B0C0D0EFF",
            "source s 1099511627776 21 [0, 1, 2, 3, 4, 5, 6, 7, 8, 9, 10, 11, 12, 13, 14, 255]",
        ),
        ("create-target|s|1024|16", "target s 1024 16"),
        ("create-target|s|1024|16|b", "target s 1024 16 over b"),
        ("create-target|s|34359738368|9", "target s 34359738368 9"),
        ("create-target|s|68719476736|10", "target s 68719476736 10"),
    ] {
        assert_eq!(rt; told(alloc, words)?.as_str(), task);
    }
    Ok(())
}

#[test]
fn other_words_are_refused(rt: HostRuntime) -> Result<(), Fail> {
    let alloc = rt.alloc();
    let none: [String; 0] = [];
    assert!(rt; read_words(alloc, &none).is_err());
    for words in [
        "create-target|s|34359738880|9",
        "create-target|s|68719476736|9",
        "create-target|s|0|9",
        "create-target|s|511|9",
        "create-target|s|513|9",
        "create-target|s|0512|9",
        "create-target|s|+512|9",
        "create-target|s|-512|9",
        "create-target|s| 512|9",
        "create-target|s|512 |9",
        "create-target|s|0x200|9",
        "create-target|s||9",
        "create-target|s|1099511628288|21",
        "create-target|s|18446744073709552128|9",
        "create-target|s|512|8",
        "create-target|s|512|22",
        "create-target|s|512|016",
        "create-target|s|512|+9",
        "create-target|s|512|",
        "create-target|s|512|4294967305",
        "create-target|s|9|512",
        "create-source|s|511|9|000102030405060708090a0b0c0d0eff",
        "create-source|s|512|9|000102030405060708090a0b0c0d0ef",
        "create-source|s|512|9|000102030405060708090a0b0c0d0efff",
        "create-source|s|512|9|000102030405060708090a0b0c0d0e",
        "create-source|s|512|9|000102030405060708090a0b0c0d0eff00",
        "create-source|s|512|9|000102030405060708090a0b0c0d0efg",
        "create-source|s|512|9|",
        "create-source|s|512|9",
        "create-source|s|512|9|000102030405060708090a0b0c0d0eff|b",
        "create-target|s|512",
        "create-target|s|512|9|b|c",
        "info",
        "info|s|t",
        "replay|s",
        "replay|s|t|u",
        "delete|s",
        "Info|s",
        "|s",
        "create|s|512|9|000102030405060708090a0b0c0d0eff",
        "info|",
        "replay|s|",
        "create-source||512|9|000102030405060708090a0b0c0d0eff",
        "create-target||512|9",
        "create-target|s|512|9|",
    ] {
        assert!(rt; is_refused(alloc, words)?, "{words}");
    }
    Ok(())
}

#[test]
fn names_are_not_too_long(rt: HostRuntime) -> Result<(), Fail> {
    let alloc = rt.alloc();
    for (bytes, is_file, is_backing) in [
        (255, true, true),
        (256, true, false),
        (4096, true, false),
        (4097, false, false),
    ] {
        let mut name = String::new(alloc);
        for _ in 0..bytes {
            name.push('a')?;
        }
        let info = format!(in alloc; "info|{name}")?;
        assert_eq!(rt; is_refused(alloc, info.as_str())?, !is_file);
        let target = format!(in alloc; "create-target|s|512|9|{name}")?;
        assert_eq!(rt; is_refused(alloc, target.as_str())?, !is_backing);
    }
    Ok(())
}
