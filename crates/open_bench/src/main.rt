//! Opens the clusters of an empty image of 1 TiB, in clusters of 64 KiB, in a depot in memory.
//!
//! With no word it prints how many clusters can be handed out; with the word `time` how long the opening took.
#![tactic(auto)]

ghost use Rattle.std.specs.Prelude.{◌≡◌, ◌<◌, IfSome};
ghost use Rattle.disk_model.specs.World.{World};

use backup_file::{create_source, valid_form};
use disk_memory::MemoryHost;
use disk_model::{Depot, FileNo};
use image_header::read_image_header;
use qc_alloc::Clusters;
use qc_layout::Part;
use std::alloc::Global;
use std::env;
use std::time::Instant;

/// The disk's bytes, and the cluster bits.
const BYTES: u64 = 1 << 40;

const CLUSTER_BITS: u32 = 16;

// Makes an empty image.
fn made<D: Depot>(alloc: Global, depot: &mut D, bytes: u64, cluster_bits: u32) -> Option<FileNo>
    ensures { IfSome result (λ file. file.0 < (D.world depot.new).given) }
{
    if !valid_form(bytes, cluster_bits) {
        return None;
    }
    create_source(alloc, depot, "s", bytes, cluster_bits, [7; 16]).ok()
}

// Opens the clusters: how many can be handed out, and how many microseconds it took.
fn opened<D: Depot>(rt: &HostRuntime, depot: &mut D, file: FileNo) -> Option<(u64, u64)>
    requires { file.0 < (D.world depot.old).given }
{
    let header = read_image_header(rt.alloc(), depot, file, Part::Source).ok()?;
    let start = Instant::now(rt).ok()?;
    let clusters = Clusters::open(rt.alloc(), depot, file, &header).ok()?;
    let micros = u64::try_from(start.elapsed(rt).ok()?.as_micros()).ok()?;
    Some((clusters.room(), micros))
}

fn run(rt: &HostRuntime) -> Option<()> {
    let mut host = MemoryHost::new(rt.alloc(), false).ok()?;
    let file = made(rt.alloc(), &mut host, BYTES, CLUSTER_BITS)?;
    let (room, micros) = opened(rt, &mut host, file)?;
    let first = env::args(rt).ok()?.skip(1).next();
    if first.is_some_and(|word| word.as_str() == "time") {
        println!(rt; "opened in {micros} microseconds").ok()
    } else {
        println!(rt; "room for {room} clusters").ok()
    }
}

fn main(rt: HostRuntime) {
    let _ = run(&rt);
}
