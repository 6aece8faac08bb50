use super::*;
use core_events::{Action, Command, Memory, SourceName};
use span_algebra::Name;
use std::alloc::Global;

// The name as text.
fn text(name: &Name) -> &str {
    match std::str::from_utf8(&name.items) {
        Ok(text) => text,
        Err(_) => "no text",
    }
}

// A name with what stands before it.
fn named(alloc: Global, what: &str, name: &Name) -> Result<String, Memory> {
    format!(in alloc; "{what}: {}", text(name))
}

// The fault with its name.
fn shown_fault(alloc: Global, fault: &QmpFault) -> Result<String, Memory> {
    match fault {
        QmpFault::BadJson => format!(in alloc; "BadJson"),
        QmpFault::NoExecute => format!(in alloc; "NoExecute"),
        QmpFault::WrongType(name) => named(alloc, "WrongType", name),
        QmpFault::UnknownMember(name) => named(alloc, "UnknownMember", name),
        QmpFault::NotNegotiated(name) => named(alloc, "NotNegotiated", name),
        QmpFault::UnknownCommand(name) => named(alloc, "UnknownCommand", name),
        QmpFault::MissingMember(name) => named(alloc, "MissingMember", name),
        QmpFault::UnknownAction(name) => named(alloc, "UnknownAction", name),
        QmpFault::TooLong => format!(in alloc; "TooLong"),
        QmpFault::Memory => format!(in alloc; "Memory"),
    }
}

// The text of the id, with what stands before it.
fn shown_id(alloc: Global, id: &Option<Id>) -> Result<String, Memory> {
    match id {
        Some(id) => {
            let text = id.value().to_string(alloc)?;
            format!(in alloc; " id {text}")
        }
        None => format!(in alloc; ""),
    }
}

// The sources, each with its node where it has one.
fn shown_sources(alloc: Global, sources: &[SourceName]) -> Result<String, Memory> {
    let mut out = String::new(alloc);
    for source in sources {
        out.push_str(" ")?;
        if let Some(node) = &source.node {
            out.push_str(text(node))?;
            out.push_str("/")?;
        }
        out.push_str(text(&source.name))?;
    }
    Ok(out)
}

// All that an action holds.
fn shown_action(alloc: Global, action: &Action) -> Result<String, Memory> {
    match action {
        Action::Add {
            node,
            name,
            granularity,
            persistent,
            recording,
        } => {
            let parts = format!(in alloc; "{granularity:?} {persistent} {recording}")?;
            format!(in alloc; "add {}/{} {parts}", text(node), text(name))
        }
        Action::Remove { node, name } => {
            format!(in alloc; "remove {}/{}", text(node), text(name))
        }
        Action::Clear { node, name } => format!(in alloc; "clear {}/{}", text(node), text(name)),
        Action::Enable { node, name } => format!(in alloc; "enable {}/{}", text(node), text(name)),
        Action::Disable { node, name } => {
            format!(in alloc; "disable {}/{}", text(node), text(name))
        }
        Action::Merge {
            node,
            target,
            sources,
        } => {
            let from = shown_sources(alloc, &sources.items)?;
            format!(in alloc; "merge {}/{} of{from}", text(node), text(target))
        }
        Action::Backup(args) => {
            let bitmap = match &args.bitmap {
                Some(name) => text(name),
                None => "none",
            };
            let parts = format!(in alloc; "{:?} {bitmap} {:?}", args.sync, args.mode)?;
            let device = text(&args.device);
            format!(in alloc;
                "backup {} of {device} to {} {parts}",
                text(&args.job),
                text(&args.target)
            )
        }
        Action::Abort => format!(in alloc; "abort"),
    }
}

// All that a command holds.
fn shown_command(alloc: Global, command: &Command) -> Result<String, Memory> {
    match command {
        Command::Act(action) => shown_action(alloc, action),
        Command::Transaction(actions) => {
            let mut out = format!(in alloc; "transaction")?;
            for action in &actions.items {
                out.push_str(", ")?;
                out.push_str(&shown_action(alloc, action)?)?;
            }
            Ok(out)
        }
        Command::JobCancel(id) => format!(in alloc; "cancel {}", text(id)),
        Command::QueryJobs => format!(in alloc; "jobs"),
        Command::QueryNodes => format!(in alloc; "nodes"),
        Command::ExportAdd(args) => {
            let bitmaps = shown_sources(alloc, &args.bitmaps.items)?;
            let node = text(&args.node);
            let parts = format!(in alloc; "{} {}{bitmaps}", text(&args.name), args.writable)?;
            format!(in alloc; "export {} of {node} as {parts}", text(&args.id))
        }
        Command::Quit => format!(in alloc; "quit"),
    }
}

// What was read, whole.
fn shown(alloc: Global, read: &Result<Order, QmpRefusal>) -> Result<String, Memory> {
    match read {
        Ok(Order::Negotiate(id)) => {
            let id = shown_id(alloc, id)?;
            format!(in alloc; "negotiate{id}")
        }
        Ok(Order::Run(command, id)) => {
            let command = shown_command(alloc, command)?;
            let id = shown_id(alloc, id)?;
            format!(in alloc; "{command}{id}")
        }
        Err(refusal) => {
            let fault = shown_fault(alloc, &refusal.fault)?;
            let id = shown_id(alloc, &refusal.id)?;
            match refusal.action {
                Some(number) => format!(in alloc; "refused: action {number}: {fault}{id}"),
                None => format!(in alloc; "refused: {fault}{id}"),
            }
        }
    }
}

// The first line that isn't read as it says; a line is a message, ` => ` and what it is.
fn first_unlike(alloc: Global, table: &str, negotiated: bool) -> Result<Option<String>, Memory> {
    for line in table.lines() {
        let Some((message, want)) = line.split_once(" => ") else {
            return Ok(Some(format!(in alloc; "no row: {line}")?));
        };
        let got = shown(alloc, &read_command(alloc, message.as_bytes(), negotiated))?;
        if got.as_str() != want {
            return Ok(Some(format!(in alloc; "{message} => {got}")?));
        }
    }
    Ok(None)
}

const BEFORE: &str = r#"{"execute":"qmp_capabilities","id":7} => negotiate id 7
{"execute":"qmp_capabilities","arguments":{"enable":[]}} => negotiate
{"execute":"qmp_capabilities","arguments":{"enable":["oob"]}} => refused: WrongType: enable
{"execute":"qmp_capabilities","arguments":{"enable":[],"a":1},"id":1} => refused: UnknownMember: a id 1
{"execute":"query-jobs"} => refused: NotNegotiated: query-jobs
{"execute":"fly","arguments":{"a":1},"id":"i"} => refused: NotNegotiated: fly id "i"
{"execute":"fly","arguments":[]} => refused: WrongType: arguments
{"execute":"fly","arguments":[],"b":1,"a":2} => refused: UnknownMember: a
{"execute":"fly","id":1.5,"a":2} => refused: WrongType: id
{"execute":7,"id":1.5} => refused: NoExecute
[1] => refused: NoExecute"#;

const REFUSED: &str = r#" => refused: BadJson
{ => refused: BadJson
{"execute":"quit"} {} => refused: BadJson
{"execute":"quit",} => refused: BadJson
{'execute':'quit'} => refused: BadJson
{"execute":"quit","id":01} => refused: BadJson
{"execute":"quit","id":1e999} => refused: BadJson
{"execute":"quit","id":"\ud800"} => refused: BadJson
{"execute":"quit","id":"\udc00\ud800"} => refused: BadJson
{"id":1} => refused: NoExecute
{"execute":null,"id":1} => refused: NoExecute
"quit" => refused: NoExecute
{"execute":"quit","id":-0} => refused: WrongType: id
{"execute":"quit","id":1.0} => refused: WrongType: id
{"execute":"quit","id":1e3} => refused: WrongType: id
{"execute":"quit","id":18446744073709551616} => refused: WrongType: id
{"execute":"quit","id":-9223372036854775809} => refused: WrongType: id
{"execute":"quit","id":{"a":[1,{"b":2.5}]},"z":1} => refused: WrongType: id
{"execute":"quit","z":1,"id":[1],"arguments":3} => refused: UnknownMember: z id [1]
{"execute":"quit","arguments":null,"id":null} => refused: WrongType: arguments id null
{"execute":"qmp_capabilities","id":7} => refused: UnknownCommand: qmp_capabilities id 7
{"execute":"abort"} => refused: UnknownCommand: abort
{"execute":"quit","arguments":{"b":1,"a":2}} => refused: UnknownMember: a
{"execute":"block-dirty-bitmap-clear","arguments":{"node":"drive0"}} => refused: MissingMember: name
{"execute":"block-dirty-bitmap-clear"} => refused: MissingMember: name
{"execute":"block-dirty-bitmap-clear","arguments":{"node":3,"zoo":1}} => refused: UnknownMember: zoo
{"execute":"block-dirty-bitmap-clear","arguments":{"node":3}} => refused: MissingMember: name
{"execute":"block-dirty-bitmap-clear","arguments":{"node":3,"name":[]}} => refused: WrongType: name
{"execute":"block-dirty-bitmap-add","arguments":{"node":"n","name":"b","granularity":-0,"disabled":1}} => refused: WrongType: disabled
{"execute":"block-dirty-bitmap-add","arguments":{"node":"n","name":"b","granularity":-1}} => refused: WrongType: granularity
{"execute":"block-dirty-bitmap-add","arguments":{"node":"n","name":"b","granularity":18446744073709551616}} => refused: WrongType: granularity
{"execute":"block-dirty-bitmap-merge","arguments":{"node":"n","target":"t","bitmaps":["a",3]}} => refused: WrongType: bitmaps
{"execute":"block-dirty-bitmap-merge","arguments":{"node":"n","target":"t","bitmaps":["a",{"node":"n","x":1}]}} => refused: UnknownMember: x
{"execute":"block-dirty-bitmap-merge","arguments":{"node":"n","target":1,"bitmaps":[{}]}} => refused: WrongType: target
{"execute":"block-dirty-bitmap-merge","arguments":{"node":"n","target":"t","bitmaps":[{},{"x":1}]}} => refused: MissingMember: name
{"execute":"blockdev-backup","arguments":{"target":"t","sync":"bitmap"}} => refused: MissingMember: bitmap-mode
{"execute":"blockdev-backup","arguments":{"target":"t","sync":3}} => refused: MissingMember: device
{"execute":"blockdev-backup","arguments":{"device":"d","target":"t"}} => refused: MissingMember: sync
{"execute":"blockdev-backup","arguments":{"device":"d","target":"t","sync":"top","bitmap-mode":"always"}} => refused: WrongType: bitmap-mode
{"execute":"blockdev-backup","arguments":{"device":"d","target":"t","sync":"top"}} => refused: WrongType: sync
{"execute":"block-export-add","arguments":{"id":"e","node-name":"d"}} => refused: MissingMember: type
{"execute":"block-export-add","arguments":{"id":"e","node-name":"d","type":"vhost","bitmaps":[{}]}} => refused: WrongType: bitmaps
{"execute":"transaction","arguments":{"actions":[3],"properties":{"x":1}}} => refused: WrongType: actions
{"execute":"transaction","arguments":{"actions":[{}],"properties":{"x":1}}} => refused: UnknownMember: x
{"execute":"transaction","arguments":{"actions":[{}],"properties":{"completion-mode":"grouped"}},"id":3} => refused: WrongType: completion-mode id 3
{"execute":"transaction","arguments":{"actions":[{"type":"abort","data":{}},{"type":"abort"}]},"id":3} => refused: action 1: MissingMember: data id 3
{"execute":"transaction","arguments":{"actions":[{"type":"fly","data":{"x":1}},{"x":1}]}} => refused: action 0: UnknownAction: fly
{"execute":"transaction","arguments":{"actions":[{"type":"transaction","data":{}}]}} => refused: action 0: UnknownAction: transaction
{"execute":"transaction","arguments":{"actions":[{"type":"abort","data":{"x":1}}]}} => refused: action 0: UnknownMember: x
{"execute":"transaction","arguments":{"actions":[{"type":"abort","data":{}},{"type":"block-dirty-bitmap-clear","data":{"name":"b"}}]}} => refused: action 1: MissingMember: node"#;

const ORDERS: &str = r#"{"execute":"quit"} => quit
 { "id" : "" , "execute" : "query-jobs" , "arguments" : { } }  => jobs id ""
{"execute":"fly","execute":"query-jobs","id":1,"id":-9223372036854775808} => jobs id -9223372036854775808
{"execute":"query-named-block-nodes","arguments":{"flat":true},"id":18446744073709551615} => nodes id 18446744073709551615
{"execute":"job-cancel","arguments":{"id":""},"id":{"b":[true,null],"a":"x\ny"}} => cancel  id {"a":"x\ny","b":[true,null]}
{"execute":"block-dirty-bitmap-add","arguments":{"node":"drive0","name":"b0"}} => add drive0/b0 None false true
{"execute":"block-dirty-bitmap-add","arguments":{"node":"n","name":"b","granularity":512,"persistent":true,"disabled":true}} => add n/b Some(512) true false
{"execute":"block-dirty-bitmap-remove","arguments":{"node":"n","name":"b"}} => remove n/b
{"execute":"block-dirty-bitmap-clear","arguments":{"node":"n","name":"b"}} => clear n/b
{"execute":"block-dirty-bitmap-enable","arguments":{"node":"n","name":"b"}} => enable n/b
{"execute":"block-dirty-bitmap-disable","arguments":{"node":"n","name":"b"}} => disable n/b
{"execute":"block-dirty-bitmap-merge","arguments":{"node":"n","target":"t","bitmaps":["a",{"node":"m","name":"b"}]}} => merge n/t of a m/b
{"execute":"blockdev-backup","arguments":{"device":"drive0","sync":"full","target":"t0"}} => backup drive0 of drive0 to t0 Full none None
{"execute":"blockdev-backup","arguments":{"device":"d","sync":"bitmap","target":"t","job-id":"j","bitmap":"b","bitmap-mode":"never"}} => backup j of d to t Bitmap b Some(Never)
{"execute":"blockdev-backup","arguments":{"device":"d","sync":"incremental","target":"t","bitmap":"b","bitmap-mode":"on-success"}} => backup d of d to t Incremental b Some(OnSuccess)
{"execute":"blockdev-backup","arguments":{"device":"d","sync":"none","target":"t"}} => backup d of d to t Nothing none None
{"execute":"block-export-add","arguments":{"type":"nbd","id":"e","node-name":"d"}} => export e of d as d false
{"execute":"block-export-add","arguments":{"type":"nbd","id":"e","node-name":"d","name":"v","writable":true,"bitmaps":["a","b"]}} => export e of d as v true a b
{"execute":"transaction","arguments":{"actions":[]}} => transaction
{"execute":"transaction","arguments":{"actions":[{"type":"block-dirty-bitmap-clear","data":{"node":"n","name":"b"}},{"type":"abort","data":{}}],"properties":{"completion-mode":"individual"}}} => transaction, clear n/b, abort"#;

#[test]
fn messages_before_the_negotiation(rt: HostRuntime) {
    let unlike = first_unlike(rt.alloc(), BEFORE, false).expect(&rt, "memory");
    assert_eq!(rt; unlike.as_deref(), None);
}

#[test]
fn refusals_come_in_order(rt: HostRuntime) {
    let unlike = first_unlike(rt.alloc(), REFUSED, true).expect(&rt, "memory");
    assert_eq!(rt; unlike.as_deref(), None);
}

#[test]
fn commands_have_the_parts_of_their_messages(rt: HostRuntime) {
    let unlike = first_unlike(rt.alloc(), ORDERS, true).expect(&rt, "memory");
    assert_eq!(rt; unlike.as_deref(), None);
}

#[test]
fn bytes_that_no_line_has(rt: HostRuntime) {
    for (message, want) in [
        (
            "{\"execute\":\"a\\u0000b\",\"id\":\"\"}".as_bytes(),
            "refused: UnknownCommand: a\0b id \"\"",
        ),
        ("{\"execute\":\r\n\"quit\"}".as_bytes(), "quit"),
        (b"{\"execute\":\"quit\"}\0".as_slice(), "refused: BadJson"),
        (b"{\"execute\":\"\xff\"}".as_slice(), "refused: BadJson"),
    ] {
        let got = shown(rt.alloc(), &read_command(rt.alloc(), message, true)).expect(&rt, "memory");
        assert_eq!(rt; got.as_str(), want);
    }
}

// A message with an id of so many lists, one in the other.
fn nested(alloc: Global, depth: usize) -> Result<String, Memory> {
    let mut out = String::from_str(alloc, "{\"execute\":\"quit\",\"id\":")?;
    for _ in 0..depth {
        out.push_str("[")?;
    }
    for _ in 0..depth {
        out.push_str("]")?;
    }
    out.push_str("}")?;
    Ok(out)
}

#[test]
fn a_message_nests_127_deep(rt: HostRuntime) {
    for (depth, want) in [(126, true), (127, false), (4000, false)] {
        let message = nested(rt.alloc(), depth).expect(&rt, "memory");
        assert_eq!(rt;
            read_command(rt.alloc(), message.as_bytes(), true).is_ok(),
            want,
            "{depth}"
        );
    }
}

#[test]
fn a_cut_message_waits(rt: HostRuntime) {
    for (bytes, want) in [
        ("", Cut::More),
        (" \t\r\n", Cut::More),
        ("\n{\"a\":{\"b\":[]}} {}", Cut::Message(1, 15)),
        ("{\"a\":\"}\\\"}\"}", Cut::Message(0, 12)),
        ("{\"a\":[1", Cut::More),
        ("{]", Cut::Message(0, 2)),
        ("]\n", Cut::Message(0, 1)),
        ("  quit\r\n{}", Cut::Message(2, 7)),
        ("quit", Cut::More),
        ("}{\n{", Cut::Message(0, 2)),
    ] {
        assert_eq!(rt; cut_message(bytes.as_bytes()), want, "{bytes}");
    }
}

#[test]
fn a_recorded_message_is_one_line(rt: HostRuntime) {
    for (message, want) in [
        (
            "{\"id\": 7,\n \"execute\":\r\n\"quit\"}",
            "{\"execute\":\"quit\",\"id\":7}",
        ),
        (
            "{\"b\":\"x\\ny\\u0001\\/\",\"a\":[],\"b\":{}}",
            "{\"a\":[],\"b\":{}}",
        ),
        (
            "{\"execute\":\"\\u0000\\n/\"}",
            "{\"execute\":\"\\u0000\\n/\"}",
        ),
        ("{\"execute\":\"quit\",\"id\":-0}", "none"),
        ("{} {}", "none"),
    ] {
        let got = recorded_text(rt.alloc(), message.as_bytes()).expect(&rt, "memory");
        let got = match &got {
            Some(text) => text.items.as_slice(),
            None => b"none".as_slice(),
        };
        assert_eq!(rt; got, want.as_bytes());
    }
}

// The first byte, so many others, and the last one.
fn long(alloc: Global, first: u8, between: usize, last: u8) -> Result<Vec<u8>, Memory> {
    let mut out = vec![in alloc; b'a'; between]?;
    out.insert(0, first)?;
    out.push(last)?;
    Ok(out)
}

#[test]
fn a_message_ends_within_2_to_the_20th_bytes(rt: HostRuntime) {
    let most = 1 << 20;
    for (first, length, last, want) in [
        (b'{', most - 1, b'a', Cut::More),
        (b'{', most, b'a', Cut::TooLong),
        (b'{', most, b'}', Cut::Message(0, most)),
        (b'{', most + 1, b'}', Cut::TooLong),
        (b'a', most - 1, b'a', Cut::More),
        (b'a', most, b'a', Cut::TooLong),
        (b'a', most, b'\n', Cut::Message(0, most - 1)),
        (b'a', most + 1, b'\n', Cut::TooLong),
    ] {
        let bytes = long(rt.alloc(), first, length - 2, last).expect(&rt, "memory");
        assert_eq!(rt; cut_message(&bytes), want, "{first} {length} {last}");
    }
}
