//! Reading.

ghost use Rattle.std.specs.Prelude.{◌≡◌, ◌≢◌, ◌⊎◌, ◌<◌, ◌≤◌, min, length, Err, OnOk, IfOk, IfErr, IsTrue};
ghost use Rattle.disk_model.specs.World.{Runs, reads_of, ReadCause, IsQuiet};
ghost use Rattle.file_device.specs.Calls.{Looks};
ghost use Rattle.file_device.specs.File.{file_of, Gives};
ghost use Rattle.qc_layout.specs.Spelling.{IsHeaderOf};
ghost use Rattle.image_header.specs.Headers.{IsRead, IsRefused, StartsAs};
ghost use Rattle.image_header.specs.declared.refusals.NoHeader.TheVariants as refusals;

use crate::refusals::NoHeader;
use disk_model::{Depot, Failed, FileNo};
use file_device::{read, size};
use qc_layout::laws::from_start;
use qc_layout::{Header, Part, read_header};
use std::alloc::Global;

/// No header takes more of a file's first bytes.
const START: u64 = 65536;

/// The header of an image, as this part reads it. It reads the file's size and its first 65,536 bytes, and no more.
pub fn read_image_header<D: Depot>(
    alloc: Global,
    depot: &mut D,
    file: FileNo,
    part: Part,
) -> Result<Header, NoHeader>
    requires given { file.0 < (D.world depot.old).given }

    ensures header { IfOk result (λ h. IsTrue (D.world depot.old).tells → IsHeaderOf part ((D.world depot.old).seen file.0) h) }
    // So it may be handed to whoever opens a part of the image.
    ensures read { IfOk result (λ h. IsRead h file.0 (D.world depot.new)) }
    ensures refused { IfErr result (λ why. IsTrue (D.world depot.old).tells → IsRefused part ((D.world depot.old).seen file.0) why) }
    ensures failed { result ≡ Err refusals.Failed → ReadCause (D.world depot.old) (D.world depot.new) file.0 result }
    ensures quiet { result ≢ Err refusals.Failed → IsQuiet (D.world depot.old) (D.world depot.new) }
    ensures run { Runs (reads_of file.0) (D.world depot.old) (D.world depot.new) }
{
    let bytes = read_start(alloc, depot, file)?;
    from_start();
    match read_header(alloc, &bytes, part) {
        Ok(header) => Ok(header),
        Err(fault) => Err(NoHeader::of(fault)),
    }
}

// How many bytes the file begins with that a header may take.
#[tactic(auto, using(crate::proofs::Starting::starts_long))]
fn count_of<D: Depot>(depot: &mut D, file: FileNo) -> Result<u64, Failed>
    requires given { file.0 < (D.world depot.old).given }
    ensures count { IfOk result (λ n. Gives (file_of (D.world depot.new) file.0) (λ c. n ≡ min (length c) 65536)) }
    ensures most { IfOk result (λ n. n ≤ 65536) }
    ensures looks { Looks file.0 (D.world depot.old) (D.world depot.new) result }
{
    Ok(size(depot, file)?.min(START))
}

// Reads the first bytes of the file, which are so many.
#[tactic(auto, using(crate::proofs::Starting::starts_as))]
fn read_first<D: Depot>(
    depot: &mut D,
    file: FileNo,
    count: u64,
    bytes: &mut [u8],
) -> Result<(), Failed>
    requires given { file.0 < (D.world depot.old).given }
    requires long { length bytes.old ≡ count }
    requires most { count ≤ 65536 }
    requires count { Gives (file_of (D.world depot.old) file.0) (λ c. count ≡ min (length c) 65536) }
    ensures start { OnOk result (Gives (file_of (D.world depot.new) file.0) (StartsAs bytes.new)) }
    ensures looks { Looks file.0 (D.world depot.old) (D.world depot.new) result }
{
    read(depot, file, 0, bytes)
}

// The first bytes of the file, as many as it has.
fn read_start<D: Depot>(alloc: Global, depot: &mut D, file: FileNo) -> Result<Vec<u8>, NoHeader>
    requires given { file.0 < (D.world depot.old).given }
    ensures start { IfOk result (λ bytes. Gives (file_of (D.world depot.new) file.0) (StartsAs bytes.items)) }
    ensures rule { IfErr result (λ why. (why ≡ refusals.Failed) ⊎ (why ≡ refusals.Memory)) }
    ensures failed { result ≡ Err refusals.Failed → ReadCause (D.world depot.old) (D.world depot.new) file.0 result }
    ensures quiet { result ≢ Err refusals.Failed → IsQuiet (D.world depot.old) (D.world depot.new) }
    ensures same { file_of (D.world depot.new) file.0 ≡ file_of (D.world depot.old) file.0 }
    ensures run { Runs (reads_of file.0) (D.world depot.old) (D.world depot.new) }
{
    let count = count_of(depot, file)?;
    let mut bytes = vec![in alloc; 0u8; count as usize]?;
    read_first(depot, file, count, &mut bytes)?;
    Ok(bytes)
}
