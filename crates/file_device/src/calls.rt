//! Calls on one file, by what they do to it.

ghost use Rattle.std.specs.Prelude.{◌≡◌, ◌+◌, ◌^◌, ◌<◌, ◌≤◌, length, IfOk, OnOk};
ghost use Rattle.disk_model.specs.Files.{reading, u64_at};
ghost use Rattle.file_device.specs.File.{file_of, Gives};
ghost use Rattle.file_device.specs.Calls.{Looks, Wrote, Synced};

use disk_model::{Depot, Failed, FileNo};

/// How many bytes a file has.
pub fn size<D: Depot>(depot: &mut D, file: FileNo) -> Result<u64, Failed>
    requires { file.0 < (D.world depot.old).given }
    ensures size { IfOk result (λ n. Gives (file_of (D.world depot.old) file.0) (λ c. n ≡ length c)) }
    ensures looks { Looks file.0 (D.world depot.old) (D.world depot.new) result }
{
    depot.size(file)
}

/// Reads bytes from an offset on, and zeros past the file's end.
pub fn read<D: Depot>(depot: &mut D, file: FileNo, at: u64, out: &mut [u8]) -> Result<(), Failed>
    requires given { file.0 < (D.world depot.old).given }
    requires end { at + length out.old ≤ 2 ^ 62 }
    ensures bytes { OnOk result (Gives (file_of (D.world depot.old) file.0) (λ c. out.new ≡ reading c at (length out.old))) }
    ensures looks { Looks file.0 (D.world depot.old) (D.world depot.new) result }
{
    depot.read_at(file, at, out)
}

/// The number of eight bytes at an offset, the highest byte first.
pub fn word<D: Depot>(depot: &mut D, file: FileNo, at: u64) -> Result<u64, Failed>
    requires given { file.0 < (D.world depot.old).given }
    requires end { at + 8 ≤ 2 ^ 62 }
    ensures number { IfOk result (λ n. Gives (file_of (D.world depot.old) file.0) (λ c. n ≡ u64_at c at)) }
    ensures looks { Looks file.0 (D.world depot.old) (D.world depot.new) result }
{
    let mut bytes = [0u8; 8];
    read(depot, file, at, &mut bytes)?;
    Ok(u64::from_be_bytes(bytes))
}

/// Writes bytes from an offset on.
pub fn write<D: Depot>(depot: &mut D, file: FileNo, at: u64, bytes: &[u8]) -> Result<(), Failed>
    requires given { file.0 < (D.world depot.old).given }
    requires end { at + length bytes.now ≤ 2 ^ 62 }
    ensures wrote { Wrote file.0 at bytes.now (D.world depot.old) (D.world depot.new) result }
{
    depot.write_at(file, at, bytes)
}

/// Makes what was written last: after it a crash leaves what reads give.
pub fn sync<D: Depot>(depot: &mut D, file: FileNo) -> Result<(), Failed>
    requires { file.0 < (D.world depot.old).given }
    ensures synced { Synced file.0 (D.world depot.old) (D.world depot.new) result }
{
    depot.sync(file)
}
