//! Requests of the drive, carried out on an image and answered.

ghost use Rattle.std.specs.Prelude.{◌≡◌, ◌≢◌, ◌+◌, ◌++◌, ◌<◌, ◌≤◌, ◌^◌, ℕ, List, length, replicate, IfOk, OnOk, IsTrue};
ghost use Rattle.disk_model.specs.Files.{reading};
ghost use Rattle.disk_model.specs.World.{World, Runs, reads_of, only_text, file_and_text, PrintsPart};
ghost use Rattle.core_events.specs.Views.{plain_request};
ghost use Rattle.qback_top.specs.Orders.{Write, Read, Sync, drive_order, fits};
ghost use Rattle.plain_model.specs.Console.{data_line};
ghost use Rattle.qback_top.specs.Open.{disk_in, WhereOpen, WhereInside, Goes};
ghost use Rattle.qback_top.specs.Lines.{Answered, Begun};
ghost use Rattle.qback_top.specs.Stops.{StopsFor};

use crate::image::{self, Image};
use crate::stop::Stop;
use core_events::{Request, Work};
use disk_model::{Console, Depot};
use std::alloc::Global;

/// The answer to a request that can't be carried out.
pub const INVALID: &[u8] = b"error EINVAL\n";

/// The answer to what was done.
pub const OK: &[u8] = b"ok\n";

fn fits(size: u64, at: u64, length: u64) -> bool
    ensures { result ≡ fits size at length }
{
    length <= 1 << 25 && at <= size && length <= size - at
}

/// Prints an answer.
pub fn say<D: Console>(depot: &mut D, text: &[u8]) -> Result<(), Stop>
    ensures printed { OnOk result (IsTrue (D.world depot.old).prints → (D.world depot.new).printed ≡ (D.world depot.old).printed ++ text.now) }
    ensures part { PrintsPart text.now (D.world depot.old) (D.world depot.new) }
    ensures run { Runs only_text (D.world depot.old) (D.world depot.new) }
    ensures cause { StopsFor (D.world depot.old) (D.world depot.new) result }
{
    depot.print(text)?;
    Ok(())
}

/// The bytes as an answer line.
fn data_text(alloc: Global, bytes: &[u8]) -> Result<Vec<u8>, Stop>
    ensures text { IfOk result (λ text. text.items ≡ data_line bytes.now) }
    ensures cause { (old new : World) → StopsFor old new result }
{
    if bytes.is_empty() {
        return Ok(Vec::from_slice(alloc, b"data\n")?);
    }
    let mut text = Vec::from_slice(alloc, b"data ")?;
    text.extend_from_slice(hex::encode(alloc, bytes)?.as_bytes())?;
    text.push(b'\n')?;
    Ok(text)
}

/// A range of the disk.
fn read_disk<D: Depot>(
    alloc: Global,
    depot: &mut D,
    image: &Image,
    at: u64,
    count: u64,
) -> Result<Vec<u8>, Stop>
    requires given { image.now.file.0 < (D.world depot.old).given }
    requires l1 { image.now.l1 ≤ 2 ^ 41 }
    requires range { at + count ≤ 2 ^ 21 }
    ensures bytes { IfOk result (λ v. WhereInside (D.world depot.old) image.now at count
        (v.items ≡ reading (disk_in (D.world depot.old) image.now) at count)) }
    ensures run { Runs (reads_of image.now.file.0) (D.world depot.old) (D.world depot.new) }
    ensures cause { StopsFor (D.world depot.old) (D.world depot.new) result }
{
    let mut out = vec![in alloc; 0u8; count as usize]?;
    image::read(depot, image, at, &mut out)?;
    Ok(out)
}

/// Reads a range, where it lies in the disk, and prints its bytes.
fn read<D: Depot + Console>(
    alloc: Global,
    depot: &mut D,
    image: &Image,
    at: u64,
    length: u64,
) -> Result<(), Stop>
    requires given { image.now.file.0 < (D.world depot.old).given }
    requires l1 { image.now.l1 ≤ 2 ^ 41 }
    requires size { image.now.size ≤ 2 ^ 21 }
    ensures answered { OnOk result (WhereOpen (D.world depot.old) image.now
        (Answered (D.world depot.old) (D.world depot.new) image.now image.now.file.0 (Read at length))) }
    ensures begun { WhereOpen (D.world depot.old) image.now
        (Begun (D.world depot.old) (D.world depot.new) image.now.file.0 (Read at length)) }
    ensures run { Runs (file_and_text image.now.file.0) (D.world depot.old) (D.world depot.new) }
    ensures cause { StopsFor (D.world depot.old) (D.world depot.new) result }
{
    if !fits(image.size, at, length) {
        return say(depot, INVALID);
    }
    let bytes = read_disk(alloc, depot, image, at, length)?;
    let text = data_text(alloc, &bytes)?;
    say(depot, &text)
}

/// Writes bytes, where they lie in the disk, and says so.
fn write<D: Depot + Console>(
    depot: &mut D,
    image: &mut Image,
    at: u64,
    bytes: &[u8],
) -> Result<(), Stop>
    requires given { image.old.file.0 < (D.world depot.old).given }
    requires l1 { image.old.l1 ≤ 2 ^ 41 }
    requires end { image.old.end ≤ 2 ^ 53 }
    requires size { image.old.size ≤ 2 ^ 21 }
    ensures image { OnOk result (Goes image.old image.new (2 ^ 22 + 16384)) }
    ensures answered { OnOk result (WhereOpen (D.world depot.old) image.old
        (Answered (D.world depot.old) (D.world depot.new) image.new image.old.file.0 (Write at bytes.now))) }
    ensures begun { WhereOpen (D.world depot.old) image.old
        (Begun (D.world depot.old) (D.world depot.new) image.old.file.0 (Write at bytes.now)) }
    ensures run { Runs (file_and_text image.old.file.0) (D.world depot.old) (D.world depot.new) }
    ensures cause { StopsFor (D.world depot.old) (D.world depot.new) result }
{
    if !fits(image.size, at, bytes.len() as u64) {
        return say(depot, INVALID);
    }
    image::write(depot, image, at, bytes)?;
    say(depot, OK)
}

/// Writes zeros, where they lie in the disk, and says so. They are made only there.
fn zero<D: Depot + Console>(
    alloc: Global,
    depot: &mut D,
    image: &mut Image,
    at: u64,
    length: u64,
) -> Result<(), Stop>
    requires given { image.old.file.0 < (D.world depot.old).given }
    requires l1 { image.old.l1 ≤ 2 ^ 41 }
    requires end { image.old.end ≤ 2 ^ 53 }
    requires size { image.old.size ≤ 2 ^ 21 }
    ensures image { OnOk result (Goes image.old image.new (2 ^ 22 + 16384)) }
    ensures answered { OnOk result (WhereOpen (D.world depot.old) image.old
        (Answered (D.world depot.old) (D.world depot.new) image.new image.old.file.0 (Write at (replicate length 0)))) }
    ensures begun { WhereOpen (D.world depot.old) image.old
        (Begun (D.world depot.old) (D.world depot.new) image.old.file.0 (Write at (replicate length 0))) }
    ensures run { Runs (file_and_text image.old.file.0) (D.world depot.old) (D.world depot.new) }
    ensures cause { StopsFor (D.world depot.old) (D.world depot.new) result }
{
    if !fits(image.size, at, length) {
        return say(depot, INVALID);
    }
    let zeros = vec![in alloc; 0u8; length as usize]?;
    write(depot, image, at, &zeros)
}

/// Makes what was written outlast a crash, and says so.
fn flush<D: Depot + Console>(depot: &mut D, image: &Image) -> Result<(), Stop>
    requires given { image.now.file.0 < (D.world depot.old).given }
    ensures answered { OnOk result (WhereOpen (D.world depot.old) image.now
        (Answered (D.world depot.old) (D.world depot.new) image.now image.now.file.0 Sync)) }
    ensures begun { WhereOpen (D.world depot.old) image.now
        (Begun (D.world depot.old) (D.world depot.new) image.now.file.0 Sync) }
    ensures run { Runs (file_and_text image.now.file.0) (D.world depot.old) (D.world depot.new) }
    ensures cause { StopsFor (D.world depot.old) (D.world depot.new) result }
{
    depot.sync(image.file)?;
    say(depot, OK)
}

/// Carries out a request of the drive, and prints its answer. How the drive is stored isn't told yet.
pub fn answer_drive<D: Depot + Console>(
    alloc: Global,
    depot: &mut D,
    image: &mut Image,
    request: &Request,
) -> Result<(), Stop>
    requires given { image.old.file.0 < (D.world depot.old).given }
    requires l1 { image.old.l1 ≤ 2 ^ 41 }
    requires end { image.old.end ≤ 2 ^ 53 }
    requires size { image.old.size ≤ 2 ^ 21 }
    ensures image { OnOk result (Goes image.old image.new (2 ^ 22 + 16384)) }
    ensures answered { let r = plain_request request.now in OnOk result (WhereOpen (D.world depot.old) image.old
        (Answered (D.world depot.old) (D.world depot.new) image.new image.old.file.0 (drive_order r.work r.offset r.length r.bytes))) }
    ensures begun { let r = plain_request request.now in WhereOpen (D.world depot.old) image.old
        (Begun (D.world depot.old) (D.world depot.new) image.old.file.0 (drive_order r.work r.offset r.length r.bytes)) }
    ensures run { Runs (file_and_text image.old.file.0) (D.world depot.old) (D.world depot.new) }
    ensures cause { StopsFor (D.world depot.old) (D.world depot.new) result }
{
    match &request.work {
        Work::Read => read(alloc, depot, image, request.offset, request.length),
        Work::Write { .. } => write(depot, image, request.offset, &request.bytes.items),
        Work::Zero { .. } => zero(alloc, depot, image, request.offset, request.length),
        Work::Flush => flush(depot, image),
        Work::Status { .. } => say(depot, INVALID),
    }
}
