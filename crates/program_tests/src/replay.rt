//! Runs of `replay FILE SCRIPT`.

use crate::image::{changed_image, image};
use crate::runs::{host_with, run_words};
use disk_memory::MemoryHost;
use std::alloc::{AllocError, Global};
use std::test::Fail;

/// A host with an image and a script.
fn host(
    alloc: Global,
    image: &[u8],
    script: &[u8],
    failing: &[u64],
) -> Result<MemoryHost, AllocError> {
    host_with(alloc, &[("s", image), ("t", script)], failing)
}

const WORDS: [&str; 3] = ["replay", "s", "t"];

const ROUND: &[u8] = b"write 4095 aabb\nread 4094 4\nquit\n";

#[test]
fn scripts_are_answered(rt: HostRuntime) -> Result<(), Fail> {
    let alloc = rt.alloc();
    let cases: [(&[u8], u8, &[u8]); 11] = [
        (ROUND, 0, b"ok\ndata 00aabb00\nok\n"),
        (
            b"read 16384 0\nread 16384 1\n",
            0,
            b"data\nerror EINVAL\nok\n",
        ),
        (
            b"write 16383 0102\nread 16383 1\n",
            0,
            b"error EINVAL\ndata 00\nok\n",
        ),
        (b"read 0 1\nflush 0\n", 5, b"line 2\n"),
        (
            b"write 4095 aabb\nsync\nread 4094 4\nquit\n",
            5,
            b"line 2\n",
        ),
        (b"quit\nread 0 1\n", 0, b"ok\n"),
        (
            b"# a comment\r\n\nwrite 0 FFfe\r\nread 0 2",
            0,
            b"ok\ndata fffe\nok\n",
        ),
        (b"", 0, b"ok\n"),
        (b"read 00 1\n", 5, b"line 1\n"),
        (b"write 0 \n", 5, b"line 1\n"),
        (
            b"read 0 33554433\nread 18446744073709551615 1\n",
            0,
            b"error EINVAL\nerror EINVAL\nok\n",
        ),
    ];
    let empty = image(alloc)?;
    for (script, status, printed) in cases {
        let run = run_words(alloc, host(alloc, &empty, script, &[])?, &WORDS)?;
        assert_eq!(rt; run.status, status);
        assert_eq!(rt; run.host.printed(), printed);
    }
    Ok(())
}

/// Lines of each form, one after another.
const EACH: &[u8] =
    b"write 0 0102030405\nzero 1 3\r\nread 0 5\nzero 16383 2\nzero 4094 4 nohole\nzero 0 0\n\
flush\r\ntick\r\n# a comment\n\nview v 0 1\nview drive0 0 1\nview drive0 16384 1\n\
status drive0 base:allocation 0 512\nqmp {}\r\nqmp \nquit\n";

const EACH_ANSWER: &[u8] = b"ok\nok\ndata 0100000005\nerror EINVAL\nok\nok\n\
ok\nok\nerror EINVAL\ndata 01\nerror EINVAL\n\
error EINVAL\n{\"error\":{\"class\":\"CommandNotFound\",\"desc\":\"Unbuilt\"}}\n\
{\"error\":{\"class\":\"CommandNotFound\",\"desc\":\"Unbuilt\"}}\nok\n";

#[test]
fn each_form_is_answered(rt: HostRuntime) -> Result<(), Fail> {
    let alloc = rt.alloc();
    let empty = image(alloc)?;
    let run = run_words(alloc, host(alloc, &empty, EACH, &[])?, &WORDS)?;
    assert_eq!(rt; run.host.printed(), EACH_ANSWER);
    assert_eq!(rt; run.status, 0);
    Ok(())
}

#[test]
fn a_stop_ends_the_run(rt: HostRuntime) -> Result<(), Fail> {
    let alloc = rt.alloc();
    let cases: [(&[u8], u8, &[u8]); 4] = [
        (b"stop\n", 0, b"stopped\n"),
        (b"write 0 11\nstop\r\nread 0 1\n", 0, b"ok\nstopped\n"),
        (b"stop\nread 0\n", 5, b"line 2\n"),
        (b"quit\nstop\n", 0, b"ok\n"),
    ];
    let empty = image(alloc)?;
    for (script, status, printed) in cases {
        let run = run_words(alloc, host(alloc, &empty, script, &[])?, &WORDS)?;
        assert_eq!(rt; run.status, status);
        assert_eq!(rt; run.host.printed(), printed);
    }
    Ok(())
}

#[test]
fn words_and_files_are_looked_at_first(rt: HostRuntime) -> Result<(), Fail> {
    let alloc = rt.alloc();
    let cases: [(&[&str], u8, &[u8]); 8] = [
        (&[], 1, b"words\n"),
        (&["replay", "s"], 1, b"words\n"),
        (&["replay", "s", "t", "u"], 1, b"words\n"),
        (&["Replay", "s", "t"], 1, b"words\n"),
        (&["replay", "", "t"], 1, b"words\n"),
        (&["replay", "u", "v"], 2, b"file u Missing\n"),
        (&["replay", "s", "v"], 2, b"file v Missing\n"),
        (&["replay", "t", "t"], 2, b"file t Unbuilt\n"),
    ];
    let empty = image(alloc)?;
    for (words, status, printed) in cases {
        let run = run_words(alloc, host(alloc, &empty, ROUND, &[])?, words)?;
        assert_eq!(rt; run.status, status);
        assert_eq!(rt; run.host.printed(), printed);
        assert_eq!(rt; run.host.file("s"), Some(empty.as_slice()));
    }
    Ok(())
}

#[test]
fn images_of_another_form_are_refused(rt: HostRuntime) -> Result<(), Fail> {
    let alloc = rt.alloc();
    let cases: [(usize, &[u8]); 17] = [
        (0, b"QFI\xfa"),
        (4, b"\0\0\0\x02"),
        (15, b"\x01"),
        (23, b"\x10"),
        (24, b"\0\0\0\0\0\0\0\0"),
        (24, b"\0\0\0\0\0\x20\x02\0"),
        (30, b"\x40\x01"),
        (35, b"\x01"),
        (39, b"\x02"),
        (46, b"\0"),
        (63, b"\x01"),
        (79, b"\x01"),
        (95, b"\x01"),
        (99, b"\x05"),
        (12288, b"\x80\0\0\0\0\0\0\0"),
        (12288, b"\0\0\0\0\0\0\x30\0"),
        (12288, b"\0\0\0\0\0\0\x40\0"),
    ];
    for (at, bytes) in cases {
        let other = changed_image(alloc, at, bytes)?;
        let run = run_words(alloc, host(alloc, &other, b"read 0 1\n", &[])?, &WORDS)?;
        assert_eq!(rt; run.host.printed(), b"file s Unbuilt\n".as_slice());
        assert_eq!(rt; run.status, 2);
        assert_eq!(rt; run.host.file("s"), Some(other.as_slice()));
    }
    Ok(())
}

#[test]
fn each_failed_call_ends_the_run(rt: HostRuntime) -> Result<(), Fail> {
    let alloc = rt.alloc();
    let empty = image(alloc)?;
    for script in [ROUND, b"zero 0 1\nflush\nqmp {}\nstop\n".as_slice()] {
        let whole = run_words(alloc, host(alloc, &empty, script, &[])?, &WORDS)?;
        assert_eq!(rt; whole.status, 0);
        for call in 1..whole.host.calls().saturating_add(1) {
            let run = run_words(alloc, host(alloc, &empty, script, &[call])?, &WORDS)?;
            assert_eq!(rt; run.status, 3);
            assert!(rt; run.host.printed().ends_with(b"device\n"));
            assert_eq!(rt; run.host.file("t"), Some(script));
        }
    }
    Ok(())
}

#[test]
fn a_closed_image_survives_a_crash(rt: HostRuntime) -> Result<(), Fail> {
    let alloc = rt.alloc();
    let empty = image(alloc)?;
    let run = run_words(alloc, host(alloc, &empty, ROUND, &[])?, &WORDS)?;
    assert_eq!(rt; run.status, 0);
    assert!(rt; run.host.keeps_calls());
    let last = run.host.moments() - 1;
    for choice in 0..8 {
        let left = run.host.pick_outcome(last, choice)?;
        assert_eq!(rt; left.file("s"), run.host.file("s"));
        let again = run_words(alloc, left, &WORDS)?;
        assert_eq!(rt; again.status, 0);
    }
    Ok(())
}
