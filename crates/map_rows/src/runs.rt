//! Entries that one device call serves.

ghost use Rattle.std.specs.Prelude.{◌≡◌, ◌*◌, ◌^◌, ◌<◌, ◌≤◌, length};
ghost use Rattle.map_rows.specs.Runs.{IsRun, place_in};

use crate::entries::stored_at;

/// Entries that are stored nowhere, or in clusters next to one another.
#[derive(Clone, Copy, Debug, PartialEq, Eq)]
pub struct Run {
    /// Where the first one's cluster is, or 0.
    pub host: u64,
    /// How many they are.
    pub count: usize,
}

// Where the entry is stored that is so many behind the first of a run.
fn place_of(host: u64, cluster: u64, behind: usize) -> u64
    requires near { host < 2 ^ 56 }
    requires cluster { cluster ≤ 2 ^ 21 }
    requires few { behind ≤ 2 ^ 18 }
    ensures { result ≡ place_in host cluster behind }
{
    if host == 0 {
        0
    } else {
        host + behind as u64 * cluster
    }
}

/// The longest run from one entry on, before another.
pub fn run_from(entries: &[u8], first: usize, end: usize, cluster: u64) -> Run
    requires some { first < end }
    requires inside { 8 * end ≤ length entries.now }
    requires few { length entries.now ≤ 2 ^ 21 }
    requires cluster { cluster ≤ 2 ^ 21 }
    ensures run { IsRun entries.now first end cluster result }
    ensures near { result.host < 2 ^ 56 }
{
    let host = stored_at(entries, first);
    for count in 1..end - first {
        if stored_at(entries, first + count) != place_of(host, cluster, count) {
            return Run { host, count };
        }
    }
    Run {
        host,
        count: end - first,
    }
}
