//! Which texts have a form, and how each line is spelled.

use crate::{
    Line, Lines, ScriptRefusal, first_bad_line, first_line, number, read_line, read_script,
    write_line,
};
use core_events::{Memory, Request, Way, Work};
use span_algebra::Bytes;
use std::alloc::Global;

// The spelling of the line that the text says.
fn spelled(alloc: Global, text: &str) -> Result<Option<Vec<u8>>, Memory> {
    let Some(line) = read_line(alloc, text.as_bytes())? else {
        return Ok(None);
    };
    let mut out = Bytes {
        items: Vec::new(alloc),
    };
    write_line(alloc, &line, &mut out)?;
    Ok(Some(out.items))
}

#[test]
fn each_form_has_one_spelling(rt: HostRuntime) {
    let table = [
        ("", "\n"),
        ("# read 0 1", "\n"),
        ("write 0 0aFf", "write 0 0aff\n"),
        (
            "write 18446744073709551615 00",
            "write 18446744073709551615 00\n",
        ),
        ("read 0 1", "read 0 1\n"),
        ("read 10 0", "read 10 0\n"),
        ("view drive0 0 1", "read 0 1\n"),
        ("view Drive0 0 1", "view Drive0 0 1\n"),
        ("zero 512 4096", "zero 512 4096\n"),
        ("zero 512 4096 nohole", "zero 512 4096 nohole\n"),
        ("flush", "flush\n"),
        (
            "status n base:allocation 0 4",
            "status n base:allocation 0 4\n",
        ),
        ("status drive0 c 0 4", "status drive0 c 0 4\n"),
        ("qmp  {\"a\": 1} ", "qmp  {\"a\": 1} \n"),
        ("qmp ", "qmp \n"),
        ("qmp a\r", "qmp a\r\r\n"),
        ("qmp \r\r", "qmp \r\r\r\n"),
        ("qmp \ra", "qmp \ra\n"),
        ("tick", "tick\n"),
        ("stop", "stop\n"),
        ("quit", "quit\n"),
    ];
    for (text, want) in table {
        let got = spelled(rt.alloc(), text).expect(&rt, "memory");
        let got = got.expect(&rt, text);
        assert_eq!(rt; got.as_slice(), want.as_bytes(), "{text}");
    }
}

#[test]
fn other_texts_have_no_form(rt: HostRuntime) {
    let table = [
        " ",
        "qmp",
        "qmp\t{}",
        "tick ",
        "tick\r",
        "Tick",
        "quit 0",
        "flush ",
        "flush 0 1",
        "read  0 1",
        "read 0  1",
        "read 0 1 ",
        " read 0 1",
        "read\t0 1",
        "read 0 1 2",
        "read 00 1",
        "read +0 1",
        "read -0 1",
        "read 0 01",
        "read 0 18446744073709551616",
        "read 0",
        "read 0 ",
        "read",
        "write 0 ",
        "write 0",
        "write 0 f",
        "write 0 fg",
        "write 0 ff ff",
        "zero 0 1 hole",
        "zero 0 1 nohole ",
        "zero 0 1  nohole",
        "zero 0 nohole",
        "view  0 1",
        "view 0 1",
        "view n c 0 1",
        "status n 0 1",
        "status n  0 1",
        "status  c 0 1",
        "status n c 0 1 2",
        "reads 0 1",
    ];
    for text in table {
        let got = read_line(rt.alloc(), text.as_bytes()).expect(&rt, "memory");
        assert!(rt; got.is_none(), "{text}");
    }
}

#[test]
fn a_line_has_the_parts_of_its_request(rt: HostRuntime) {
    let line = read_line(rt.alloc(), b"status n c 5 6").expect(&rt, "memory");
    let Some(Line::Ask(request)) = &line else {
        assert!(rt; false, "a status asks something");
        return;
    };
    assert_eq!(rt; request.offset, 5);
    assert_eq!(rt; request.length, 6);
    assert!(rt; request.bytes.items.is_empty());
    match &request.way {
        Way::Node(name) => assert_eq!(rt; name.items.as_slice(), b"n".as_slice()),
        Way::Export(_) => assert!(rt; false, "a status asks a node"),
    }
    match &request.work {
        Work::Status { context, one } => {
            assert_eq!(rt; context.items.as_slice(), b"c".as_slice());
            assert!(rt; !*one);
        }
        _ => assert!(rt; false, "a status is a status"),
    }
}

// How many lines the script says.
fn count(alloc: Global, text: &str) -> Result<usize, ScriptRefusal> {
    let lines = read_script(alloc, text.as_bytes())?;
    Ok(lines.items.len())
}

#[test]
fn a_script_is_read_to_its_first_bad_line(rt: HostRuntime) {
    let table = [
        ("", Ok(0)),
        ("\n", Ok(1)),
        ("tick", Ok(1)),
        ("tick\n", Ok(1)),
        ("tick\r\n# \r\nquit\r", Ok(3)),
        ("quit\n\nflush", Ok(3)),
        ("tick\r\r\n", Err(ScriptRefusal::BadLine(1))),
        ("tick\n\nread\nwrite", Err(ScriptRefusal::BadLine(3))),
        ("quit\nqmp", Err(ScriptRefusal::BadLine(2))),
    ];
    for (text, want) in table {
        assert_eq!(rt; count(rt.alloc(), text), want, "{text}");
        let bad = first_bad_line(rt.alloc(), text.as_bytes()).expect(&rt, "memory");
        let refused = match want {
            Err(ScriptRefusal::BadLine(n)) => Some(n),
            _ => None,
        };
        assert_eq!(rt; bad, refused, "{text}");
    }
    let parts = first_line(b"tick\r\nquit");
    assert_eq!(rt; parts.0, b"tick".as_slice());
    assert_eq!(rt; parts.1, b"quit".as_slice());
}

// The bytes as text.
fn text(bytes: &[u8]) -> &str {
    match std::str::from_utf8(bytes) {
        Ok(text) => text,
        Err(_) => "no text",
    }
}

// All that a request holds.
fn shown_request(alloc: Global, request: &Request) -> Result<String, Memory> {
    let node = match &request.way {
        Way::Node(name) => text(&name.items),
        Way::Export(_) => "an export",
    };
    let work = match &request.work {
        Work::Read => format!(in alloc; "read")?,
        Work::Write { fua } => format!(in alloc; "write, fua {fua}")?,
        Work::Zero { fua, no_hole } => { format!(in alloc; "zero, fua {fua}, no_hole {no_hole}")? }
        Work::Flush => format!(in alloc; "flush")?,
        Work::Status { context, one } => {
            format!(in alloc; "status of {}, one {one}", text(&context.items))?
        }
    };
    let bytes = request.bytes.items.as_slice();
    format!(in alloc;
        "{node}: {work}, at {} {}: {bytes:?}",
        request.offset, request.length
    )
}

// All that a line holds.
fn shown(alloc: Global, line: &Line) -> Result<String, Memory> {
    match line {
        Line::Ask(request) => shown_request(alloc, request),
        Line::Qmp(json) => format!(in alloc; "qmp: {:?}", json.items.as_slice()),
        Line::Tick => format!(in alloc; "tick"),
        Line::Stop => format!(in alloc; "stop"),
        Line::Quit => format!(in alloc; "quit"),
        Line::Nothing => format!(in alloc; "nothing"),
    }
}

// All that the lines hold, each with a line feed.
fn all_shown(alloc: Global, lines: &Lines) -> Result<String, Memory> {
    let mut out = String::new(alloc);
    for line in &lines.items {
        let held = shown(alloc, line)?;
        out.push_str(&held)?;
        out.push('\n')?;
    }
    Ok(out)
}

// The lines as they are written.
fn written(alloc: Global, lines: &Lines) -> Result<Vec<u8>, Memory> {
    let mut out = Bytes {
        items: Vec::new(alloc),
    };
    for line in &lines.items {
        write_line(alloc, line, &mut out)?;
    }
    Ok(out.items)
}

const SCRIPT: &str = "# a run\r
write 512 0AfF
read 7 9\r
view snap 3 4
view drive0 18446744073709551615 0
zero 0 4096
zero 1 2 nohole\r
flush
status n dirty-bitmap:a 5 6
qmp {\"a\": 1} \r\r

tick
stop\r
quit";

const HELD: &str = "nothing
drive0: write, fua false, at 512 2: [10, 255]
drive0: read, at 7 9: []
snap: read, at 3 4: []
drive0: read, at 18446744073709551615 0: []
drive0: zero, fua false, no_hole false, at 0 4096: []
drive0: zero, fua false, no_hole true, at 1 2: []
drive0: flush, at 0 0: []
n: status of dirty-bitmap:a, one false, at 5 6: []
qmp: [123, 34, 97, 34, 58, 32, 49, 125, 32, 13]
nothing
tick
stop
quit
";

const WRITTEN: &str = "
write 512 0aff
read 7 9
view snap 3 4
read 18446744073709551615 0
zero 0 4096
zero 1 2 nohole
flush
status n dirty-bitmap:a 5 6
qmp {\"a\": 1} \r\r

tick
stop
quit
";

#[test]
fn a_script_is_read_line_by_line_and_written_back(rt: HostRuntime) {
    let lines = read_script(rt.alloc(), SCRIPT.as_bytes()).expect(&rt, "a script");
    let held = all_shown(rt.alloc(), &lines).expect(&rt, "memory");
    assert_eq!(rt; held.as_str(), HELD);
    let text = written(rt.alloc(), &lines).expect(&rt, "memory");
    assert_eq!(rt; text.as_slice(), WRITTEN.as_bytes());
    let again = read_script(rt.alloc(), &text).expect(&rt, "a script");
    let held = all_shown(rt.alloc(), &again).expect(&rt, "memory");
    assert_eq!(rt; held.as_str(), HELD);
    let text = written(rt.alloc(), &again).expect(&rt, "memory");
    assert_eq!(rt; text.as_slice(), WRITTEN.as_bytes());
}

#[test]
fn a_number_is_below_two_to_the_64th(rt: HostRuntime) {
    assert_eq!(rt; number(b"0"), Some(0));
    assert_eq!(rt; number(b"18446744073709551615"), Some(u64::MAX));
    assert_eq!(rt; number(b"18446744073709551616"), None);
    assert_eq!(rt; number(b"01"), None);
    assert_eq!(rt; number(b""), None);
}
