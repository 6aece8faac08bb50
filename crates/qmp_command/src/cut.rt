//! Where the messages of a stream end.

ghost use Rattle.std.specs.Prelude.{◌≡◌, ◌+◌, ◌<◌, ◌≤◌, ◌^◌, ◌∷◌, ℕ, List, length, drop, slice_index, false, IfSome};
ghost use Rattle.monitor_model.specs.Messages as model;
ghost use Rattle.qmp_command.specs.Views.{plain_cut, plain_scan};

/// The first message of a stream.
#[derive(Clone, Copy, Debug, PartialEq, Eq)]
pub enum Cut {
    /// The bytes are no whole message.
    More,
    /// A message stands from this byte to before that one.
    Message(usize, usize),
    /// The message has no end within 2^20 bytes.
    TooLong,
}

/// Within so many bytes a message is to end.
const LONGEST: usize = 1 << 20;

/// How many braces and brackets are open, whether a string is open, and whether a backslash stands before.
#[derive(Clone, Copy, Debug)]
struct Scan {
    depth: usize,
    in_string: bool,
    escaped: bool,
}

/// Whether the byte may stand between messages.
fn is_between(byte: u8) -> bool
    ensures { result ≡ model.is_between byte }
{
    byte == b' ' || byte == b'\t' || byte == b'\r' || byte == b'\n'
}

/// Past one byte within a string.
fn in_text(scan: Scan, byte: u8) -> Scan
    ensures scan { plain_scan result ≡ model.in_text (plain_scan scan) byte }
    ensures depth { result.depth ≡ scan.depth }
{
    if scan.escaped {
        Scan {
            escaped: false,
            ..scan
        }
    } else if byte == b'\\' {
        Scan {
            escaped: true,
            ..scan
        }
    } else if byte == b'"' {
        Scan {
            in_string: false,
            ..scan
        }
    } else {
        scan
    }
}

/// Past one byte outside of strings.
fn outside(scan: Scan, byte: u8) -> Scan
    requires { scan.depth + 1 < 2 ^ 64 }
    ensures scan { plain_scan result ≡ model.outside (plain_scan scan) byte }
    ensures depth { result.depth ≤ scan.depth + 1 }
{
    match byte {
        b'"' => Scan {
            in_string: true,
            ..scan
        },
        b'{' | b'[' => Scan {
            depth: scan.depth + 1,
            ..scan
        },
        b'}' | b']' => Scan {
            depth: scan.depth.saturating_sub(1),
            ..scan
        },
        _ => scan,
    }
}

/// Past one byte.
fn past(scan: Scan, byte: u8) -> Scan
    requires { scan.depth + 1 < 2 ^ 64 }
    ensures scan { plain_scan result ≡ model.past (plain_scan scan) byte }
    ensures depth { result.depth ≤ scan.depth + 1 }
{
    if scan.in_string {
        in_text(scan, byte)
    } else {
        outside(scan, byte)
    }
}

/// After how many bytes the depth comes to 0.
fn closed_after(bytes: &[u8]) -> Option<usize>
    ensures end { result ≡ model.closed_after (record { depth = 0; in_string = false; escaped = false }) bytes.now }
    ensures within { IfSome result (λ n. n ≤ length bytes.now) }
{
    let mut scan = Scan {
        depth: 0,
        in_string: false,
        escaped: false,
    };
    for (i, byte) in bytes.iter().enumerate() {
        scan = past(scan, *byte);
        if scan.depth == 0 {
            return Some(i + 1);
        }
    }
    None
}

/// How many bytes stand before the first line feed.
fn before_feed(bytes: &[u8]) -> Option<usize>
    ensures end { result ≡ model.before_feed bytes.now }
    ensures within { IfSome result (λ n. n ≤ length bytes.now) }
{
    for (i, byte) in bytes.iter().enumerate() {
        if *byte == b'\n' {
            return Some(i);
        }
    }
    None
}

/// How many bytes stand before the first message.
fn blanks(bytes: &[u8]) -> usize
    ensures cut { model.cut_of bytes.now ≡ model.cut_from result (drop result bytes.now) }
    ensures within { result ≤ length bytes.now }
    ensures some { result < length bytes.now → model.is_between (slice_index bytes.now result) ≡ false }
{
    for (i, byte) in bytes.iter().enumerate() {
        if !is_between(*byte) {
            return i;
        }
    }
    bytes.len()
}

/// Where the message stands that begins at so many bytes with these.
fn cut_at(start: usize, bytes: &[u8]) -> Cut
    requires some { 0 < length bytes.now }
    requires room { start + length bytes.now < 2 ^ 64 }
    ensures { (b : ℕ) (more : List ℕ) → bytes.now ≡ b ∷ more → plain_cut result ≡ model.cut_at b start (model.message_length b more) (length bytes.now) }
{
    let braced = bytes[0] == b'{';
    let (end, longest) = if braced {
        (closed_after(bytes), LONGEST)
    } else {
        (before_feed(bytes), LONGEST - 1)
    };
    match end {
        Some(count) => {
            if count <= longest {
                Cut::Message(start, start + count)
            } else {
                Cut::TooLong
            }
        }
        None => {
            if bytes.len() < LONGEST {
                Cut::More
            } else {
                Cut::TooLong
            }
        }
    }
}

/// Where the first message of these bytes stands.
pub fn cut_message(bytes: &[u8]) -> Cut
    ensures { plain_cut result ≡ model.cut_of bytes.now }
{
    let start = blanks(bytes);
    let message = &bytes[start..];
    if message.is_empty() {
        return Cut::More;
    }
    cut_at(start, message)
}
