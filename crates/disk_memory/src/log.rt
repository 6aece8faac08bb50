//! What the calls did to files.

ghost use Rattle.std.specs.Prelude.{◌≡◌, ◌∷◌, [], ◌++◌, map, false, OnOk, OnErr, IsOk};
ghost use Rattle.disk_memory.specs.Held.{change_of, FilePut, BytesWritten, UnderWay, FileSynced};
ghost use Rattle.disk_memory.specs.Steps.{noted};

use std::alloc::{AllocError, Global};

// What a call did: put a file, wrote at an offset, was in the midst of a write, synced a file.
#[derive(Drop)]
pub(crate) enum Call {
    Put(u32, Vec<u8>),
    Write(u32, u64, Vec<u8>),
    Inside,
    Sync(u32),
}

// Notes a file that is put, where calls are kept.
pub(crate) fn note_put(
    alloc: Global,
    keep: bool,
    log: &mut Vec<Call>,
    file: u32,
    bytes: &[u8],
) -> Result<(), AllocError>
    ensures ok { OnOk result (map change_of log.new.items ≡ map change_of log.old.items ++ noted keep (FilePut file bytes.now ∷ [])) }
    ensures err { OnErr result (log.new.items ≡ log.old.items) }
    ensures sure { keep ≡ false → IsOk result }
{
    if !keep {
        return Ok(());
    }
    let kept = bytes.to_vec(alloc)?;
    log.push(Call::Put(file, kept))?;
    Ok(())
}

// Notes a write: a moment inside it, and one after it.
pub(crate) fn note_write(
    alloc: Global,
    keep: bool,
    log: &mut Vec<Call>,
    file: u32,
    at: u64,
    bytes: &[u8],
) -> Result<(), AllocError>
    ensures ok { OnOk result (map change_of log.new.items ≡ map change_of log.old.items ++ noted keep (BytesWritten file at bytes.now ∷ UnderWay ∷ [])) }
    ensures err { OnErr result (log.new.items ≡ log.old.items) }
    ensures sure { keep ≡ false → IsOk result }
{
    if !keep {
        return Ok(());
    }
    let kept = bytes.to_vec(alloc)?;
    log.reserve(2)?;
    log.push_reserved(Call::Write(file, at, kept));
    log.push_reserved(Call::Inside);
    Ok(())
}

// Notes a sync.
pub(crate) fn note_sync(keep: bool, log: &mut Vec<Call>, file: u32) -> Result<(), AllocError>
    ensures ok { OnOk result (map change_of log.new.items ≡ map change_of log.old.items ++ noted keep (FileSynced file ∷ [])) }
    ensures err { OnErr result (log.new.items ≡ log.old.items) }
    ensures sure { keep ≡ false → IsOk result }
{
    if !keep {
        return Ok(());
    }
    log.push(Call::Sync(file))?;
    Ok(())
}
