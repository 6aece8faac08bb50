use super::*;
use core_events::{
    BitmapInfo, BitmapInfos, Errno, JobFault, JobInfo, JobInfos, Memory, NodeInfo, NodeInfos,
    Notice, Refusal, Reply,
};
use qmp_command::{Id, Order, QmpFault, QmpRefusal, read_command};
use span_algebra::{Bytes, End, Name, Point, Span};
use std::alloc::Global;

fn name(alloc: Global, text: &str) -> Result<Name, Memory> {
    Ok(Name {
        items: text.as_bytes().to_vec(alloc)?,
    })
}

// The id of a message with this one.
fn seven(alloc: Global) -> Option<Id> {
    let message = b"{\"execute\":\"query-jobs\",\"id\":{\"n\":[7,\"a\\u0062\"]}}";
    match read_command(alloc, message, true) {
        Ok(Order::Run(_, id)) => id,
        _ => None,
    }
}

// Bytes that stand there already.
fn begun(alloc: Global) -> Result<Bytes, Memory> {
    Ok(Bytes {
        items: b"> ".to_vec(alloc)?,
    })
}

fn shown(alloc: Global, out: &Bytes) -> Result<String, Memory> {
    String::from_utf8_lossy(alloc, &out.items)
}

#[test]
fn a_monitor_is_greeted(rt: HostRuntime) {
    let mut out = begun(rt.alloc()).expect(&rt, "memory");
    greeting(rt.alloc(), &mut out).expect(&rt, "memory");
    let text = shown(rt.alloc(), &out).expect(&rt, "memory");
    assert_eq!(rt;
        text.as_str(),
        "> {\"QMP\":{\"capabilities\":[],\"version\":{\"package\":\"qback\",\"qemu\":{\"major\":1,\"micro\":0,\"minor\":0}}}}\r\n"
    );
}

// The reply that is sent, with an id where one is asked.
fn replied(alloc: Global, reply: &Reply, with_id: bool) -> Result<String, Memory> {
    let id = seven(alloc);
    let id = if with_id { id.as_ref() } else { None };
    let mut out = begun(alloc)?;
    answer(alloc, reply, id, &mut out)?;
    shown(alloc, &out)
}

fn bitmap(alloc: Global, text: &str, span: Span) -> Result<BitmapInfo, Memory> {
    Ok(BitmapInfo {
        name: name(alloc, text)?,
        granularity: 4096,
        count: 8192,
        span,
        recording: true,
        persistent: false,
        busy: true,
        inconsistent: false,
    })
}

// A drive with three bitmaps, and a view that broke.
fn nodes(alloc: Global) -> Result<NodeInfos, Memory> {
    let from = Point {
        epoch: 1,
        serial: 20,
    };
    let to = End::At(Point {
        epoch: 3,
        serial: 4,
    });
    let mut bitmaps = Vec::new(alloc);
    bitmaps.push(bitmap(alloc, "b0", Span::Unknown)?)?;
    let now = End::Now;
    bitmaps.push(bitmap(alloc, "b\"1\n", Span::Known { from, to: now })?)?;
    bitmaps.push(bitmap(alloc, "b2", Span::Known { from, to })?)?;
    let mut items = Vec::new(alloc);
    items.push(NodeInfo {
        name: name(alloc, "drive0")?,
        size: 16384,
        bitmaps: Some(BitmapInfos { items: bitmaps }),
        broken_at: None,
    })?;
    items.push(NodeInfo {
        name: name(alloc, "v0")?,
        size: 512,
        bitmaps: None,
        broken_at: Some(9),
    })?;
    Ok(NodeInfos { items })
}

fn jobs(alloc: Global) -> Result<JobInfos, Memory> {
    let mut items = Vec::new(alloc);
    for (id, current, total) in [("j0", 4096, 16384), ("v0", 0, u64::MAX)] {
        items.push(JobInfo {
            id: name(alloc, id)?,
            current,
            total,
        })?;
    }
    Ok(JobInfos { items })
}

fn no_jobs(alloc: Global) -> JobInfos {
    JobInfos {
        items: Vec::new(alloc),
    }
}

// One reply of each kind.
fn reply(alloc: Global, number: usize) -> Result<Reply, Memory> {
    Ok(match number {
        0 => Reply::Done,
        1 => Reply::Bytes,
        2 => Reply::Runs,
        3 => Reply::Fault(Errno::Io),
        4 => Reply::Jobs(no_jobs(alloc)),
        5 => Reply::Jobs(jobs(alloc)?),
        6 => Reply::Nodes(nodes(alloc)?),
        _ => Reply::Refused(Some(1), Refusal::NoSuchBitmap(name(alloc, "b9")?)),
    })
}

const REPLIES: &str = r#""return":{}
"return":{}
"return":{}
"return":{}
"return":[]
"return":[{"current-progress":4096,"id":"j0","status":"running","total-progress":16384,"type":"backup"},{"current-progress":0,"id":"v0","status":"running","total-progress":18446744073709551615,"type":"backup"}]
"return":[{"dirty-bitmaps":[{"busy":true,"count":8192,"granularity":4096,"inconsistent":false,"name":"b0","persistent":false,"recording":true,"x-span":"unknown"},{"busy":true,"count":8192,"granularity":4096,"inconsistent":false,"name":"b\"1\n","persistent":false,"recording":true,"x-span":"1.20 now"},{"busy":true,"count":8192,"granularity":4096,"inconsistent":false,"name":"b2","persistent":false,"recording":true,"x-span":"1.20 3.4"}],"image":{"virtual-size":16384},"node-name":"drive0"},{"image":{"virtual-size":512},"node-name":"v0","x-broken-at":9}]"#;

const ID: &str = r#""id":{"n":[7,"ab"]}"#;

#[test]
fn a_reply_has_the_id_before_its_return(rt: HostRuntime) {
    for (number, want) in REPLIES.lines().enumerate() {
        let reply = reply(rt.alloc(), number).expect(&rt, "memory");
        let bare = format!(in rt.alloc(); "> {{{want}}}\r\n").expect(&rt, "memory");
        let text = replied(rt.alloc(), &reply, false).expect(&rt, "memory");
        assert_eq!(rt; text.as_str(), bare.as_str());
        let with_id = format!(in rt.alloc(); "> {{{ID},{want}}}\r\n").expect(&rt, "memory");
        let text = replied(rt.alloc(), &reply, true).expect(&rt, "memory");
        assert_eq!(rt; text.as_str(), with_id.as_str());
    }
}

// The refusal of this number, in the order of its type.
fn refusal(alloc: Global, number: usize) -> Result<Refusal, Memory> {
    let named = name(alloc, "x")?;
    Ok(match number {
        0 => Refusal::Unbuilt(named),
        1 => Refusal::SerialSpent,
        2 => Refusal::NodeUnknown(named),
        3 => Refusal::BadName,
        4 => Refusal::NameTaken(named),
        5 => Refusal::TooMany(5),
        6 => Refusal::BadGranularity(6),
        7 => Refusal::TooFine(7),
        8 => Refusal::NoSuchBitmap(named),
        9 => Refusal::Busy(named),
        10 => Refusal::Inconsistent(named),
        11 => Refusal::JobTaken(named),
        12 => Refusal::TooManyJobs(12),
        13 => Refusal::BitmapNeeded,
        14 => Refusal::BitmapForbidden(named),
        15 => Refusal::SourceBroken(15),
        16 => Refusal::TargetBusy(named),
        17 => Refusal::DeviceFailed(named),
        18 => Refusal::TargetMissing(named),
        19 => Refusal::TargetFault(named),
        20 => Refusal::TargetUsed(named),
        21 => Refusal::OtherSize(named),
        22 => Refusal::Aborted,
        23 => Refusal::JobUnknown(named),
        24 => Refusal::ReadOnlyNode(named),
        25 => Refusal::ExportTaken(named),
        26 => Refusal::TooManyExports(26),
        _ => Refusal::OutOfMemory,
    })
}

const REFUSALS: &str = "Unbuilt: x
SerialSpent
NodeUnknown: x
BadName
NameTaken: x
TooMany: 5
BadGranularity: 6
TooFine: 7
NoSuchBitmap: x
Busy: x
Inconsistent: x
JobTaken: x
TooManyJobs: 12
BitmapNeeded
BitmapForbidden: x
SourceBroken: 15
TargetBusy: x
DeviceFailed: x
TargetMissing: x
TargetFault: x
TargetUsed: x
OtherSize: x
Aborted
JobUnknown: x
ReadOnlyNode: x
ExportTaken: x
TooManyExports: 26
OutOfMemory";

// The error that is wanted, with what stands before its text, and with an id where one is asked.
fn wanted(
    alloc: Global,
    class: &str,
    action: Option<u64>,
    said: &str,
    with_id: bool,
) -> Result<String, Memory> {
    let action = match action {
        Some(k) => format!(in alloc; "action {k}: ")?,
        None => String::new(alloc),
    };
    let error = format!(in alloc;
        "\"error\":{{\"class\":\"{class}\",\"desc\":\"{action}{said}\"}}"
    )?;
    if with_id {
        format!(in alloc; "> {{{error},{ID}}}\r\n")
    } else {
        format!(in alloc; "> {{{error}}}\r\n")
    }
}

#[test]
fn a_refusal_has_the_action_and_the_value(rt: HostRuntime) {
    for (number, said) in REFUSALS.lines().enumerate() {
        for (action, with_id) in [(None, false), (Some(0), true), (Some(u64::MAX), false)] {
            let refusal = refusal(rt.alloc(), number).expect(&rt, "memory");
            let reply = Reply::Refused(action, refusal);
            let text = replied(rt.alloc(), &reply, with_id).expect(&rt, "memory");
            let want = wanted(rt.alloc(), "GenericError", action, said, with_id);
            let want = want.expect(&rt, "memory");
            assert_eq!(rt; text.as_str(), want.as_str());
        }
    }
}

// The fault of this number, in the order of its type.
fn fault(alloc: Global, number: usize) -> Result<QmpFault, Memory> {
    let named = name(alloc, "x")?;
    Ok(match number {
        0 => QmpFault::BadJson,
        1 => QmpFault::NoExecute,
        2 => QmpFault::WrongType(named),
        3 => QmpFault::UnknownMember(named),
        4 => QmpFault::NotNegotiated(named),
        5 => QmpFault::UnknownCommand(named),
        6 => QmpFault::MissingMember(named),
        7 => QmpFault::UnknownAction(named),
        8 => QmpFault::TooLong,
        _ => QmpFault::Memory,
    })
}

const FAULTS: &str = "BadJson
NoExecute
WrongType: x
UnknownMember: x
NotNegotiated: x
UnknownCommand: x
MissingMember: x
UnknownAction: x
TooLong
OutOfMemory";

// The reply that a fault gets. The refusal's own id isn't looked at.
fn told(
    alloc: Global,
    fault: QmpFault,
    action: Option<u64>,
    with_id: bool,
) -> Result<String, Memory> {
    let refusal = QmpRefusal {
        fault,
        action,
        id: seven(alloc),
    };
    let id = if with_id { refusal.id.as_ref() } else { None };
    let mut out = begun(alloc)?;
    refused(alloc, &refusal, id, &mut out)?;
    shown(alloc, &out)
}

#[test]
fn a_message_is_refused_by_its_class(rt: HostRuntime) {
    for (number, said) in FAULTS.lines().enumerate() {
        let class = if number == 4 || number == 5 {
            "CommandNotFound"
        } else {
            "GenericError"
        };
        for (action, with_id) in [(None, false), (Some(3), true)] {
            let fault = fault(rt.alloc(), number).expect(&rt, "memory");
            let text = told(rt.alloc(), fault, action, with_id).expect(&rt, "memory");
            let want = wanted(rt.alloc(), class, action, said, with_id).expect(&rt, "memory");
            assert_eq!(rt; text.as_str(), want.as_str());
        }
    }
}

// A notice of a job that completed with this fault, or was cancelled.
fn told_end(
    alloc: Global,
    job: &str,
    completed: bool,
    fault: Option<JobFault>,
    moment: u64,
) -> Result<String, Memory> {
    let job = name(alloc, job)?;
    let told = if completed {
        Notice::Completed {
            job,
            length: 16384,
            offset: 4096,
            fault,
        }
    } else {
        Notice::Cancelled {
            job,
            length: 16384,
            offset: 4096,
        }
    };
    let mut out = begun(alloc)?;
    notice(alloc, &told, moment, &mut out)?;
    shown(alloc, &out)
}

const ENDS: &str =
    r#"{"data":{"device":"j0","len":16384,"offset":4096,"speed":0,"type":"backup"},"event":"BLOCK_JOB_COMPLETED","timestamp":{"microseconds":6,"seconds":0}}
{"data":{"device":"j0","error":"Failed","len":16384,"offset":4096,"speed":0,"type":"backup"},"event":"BLOCK_JOB_COMPLETED","timestamp":{"microseconds":0,"seconds":1}}
{"data":{"device":"j0","error":"NoRoom","len":16384,"offset":4096,"speed":0,"type":"backup"},"event":"BLOCK_JOB_COMPLETED","timestamp":{"microseconds":999999,"seconds":1}}
{"data":{"device":"j0","error":"SourceBroken","len":16384,"offset":4096,"speed":0,"type":"backup"},"event":"BLOCK_JOB_COMPLETED","timestamp":{"microseconds":551615,"seconds":18446744073709}}
{"data":{"device":"j0","len":16384,"offset":4096,"speed":0,"type":"backup"},"event":"BLOCK_JOB_CANCELLED","timestamp":{"microseconds":7,"seconds":0}}"#;

#[test]
fn a_notice_tells_the_fault_and_the_moment(rt: HostRuntime) {
    let ends = [
        (true, None, 6),
        (true, Some(JobFault::Failed), 1_000_000),
        (true, Some(JobFault::NoRoom), 1_999_999),
        (true, Some(JobFault::SourceBroken), u64::MAX),
        (false, None, 7),
    ];
    for ((completed, fault, moment), want) in ends.iter().zip(ENDS.lines()) {
        let text = told_end(rt.alloc(), "j0", *completed, *fault, *moment).expect(&rt, "memory");
        let want = format!(in rt.alloc(); "> {want}\r\n").expect(&rt, "memory");
        assert_eq!(rt; text.as_str(), want.as_str());
    }
}

#[test]
fn a_name_that_is_no_text_is_sent_as_one(rt: HostRuntime) {
    let items = [97, 255, 98].to_vec(rt.alloc()).expect(&rt, "memory");
    let reply = Reply::Refused(None, Refusal::Busy(Name { items }));
    let text = replied(rt.alloc(), &reply, false).expect(&rt, "memory");
    let want = "> {\"error\":{\"class\":\"GenericError\",\"desc\":\"Busy: a\u{FFFD}b\"}}\r\n";
    assert_eq!(rt; text.as_str(), want);
}
