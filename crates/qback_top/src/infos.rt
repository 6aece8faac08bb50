//! The command `info FILE`.

ghost use Rattle.std.specs.Prelude.{◌≡◌, ◌≢◌, ◌<◌, ◌≤◌, ℕ, List, IsTrue, IfOk, OnErr};
ghost use Rattle.disk_model.specs.Files.{reading};
ghost use Rattle.disk_model.specs.World.{World, Runs, reads_of};
ghost use Rattle.qc_layout.specs.Laws.{start_of};
ghost use Rattle.qback_top.specs.Words.{IsInfo};
ghost use Rattle.qback_top.specs.Endings.{tells_of};
ghost use Rattle.qback_top.specs.Stops.{StopsFor};
ghost use Rattle.qback_top.specs.Shown.{ShowsInfo, StopsInInfo, NeedsRise, status_at};

use crate::description::{Description, describe};
use crate::end::End;
use crate::stop::Stop;
use disk_model::{Console, Depot, FileNo};
use qc_layout::start_length;
use std::alloc::Global;

/// The first bytes of a file, with zeros past its end.
fn read_first<D: Depot>(
    alloc: Global,
    depot: &mut D,
    file: FileNo,
    count: u64,
) -> Result<Vec<u8>, Stop>
    requires given { file.0 < (D.world depot.old).given }
    requires count { count ≤ 65536 }
    ensures bytes { IfOk result (λ v. IsTrue (D.world depot.old).tells → v.items ≡ reading ((D.world depot.old).seen file.0) 0 count) }
    ensures run { Runs (reads_of file.0) (D.world depot.old) (D.world depot.new) }
    ensures cause { StopsFor (D.world depot.old) (D.world depot.new) result }
{
    let mut bytes = vec![in alloc; 0u8; count as usize]?;
    depot.read_at(file, 0, &mut bytes)?;
    Ok(bytes)
}

/// As many of a file's first bytes as its header takes: its first sector, and the rest of its first cluster up to 65536
/// bytes.
fn read_start<D: Depot>(alloc: Global, depot: &mut D, file: FileNo) -> Result<Vec<u8>, Stop>
    requires { file.0 < (D.world depot.old).given }
    ensures bytes { IfOk result (λ v. IsTrue (D.world depot.old).tells → v.items ≡ start_of ((D.world depot.old).seen file.0)) }
    ensures run { Runs (reads_of file.0) (D.world depot.old) (D.world depot.new) }
    ensures cause { StopsFor (D.world depot.old) (D.world depot.new) result }
{
    let size = depot.size(file)?;
    let sector = read_first(alloc, depot, file, size.min(512))?;
    let count = start_length(&sector).min(size);
    if count <= 512 {
        return Ok(sector);
    }
    read_first(alloc, depot, file, count)
}

/// Prints what a file is. It reads the header, and nothing else of the file.
pub fn tell<'a, D: Depot + Console>(
    alloc: Global,
    file: &'a str,
    depot: &mut D,
) -> Result<End<'a>, Stop>
    ensures form { IfOk result (λ end. status_at end ≢ 1) }
    ensures shows { IfOk result (λ end. IsTrue (D.world depot.old).tells → (words : List (List ℕ)) → IsInfo words file.now →
        ShowsInfo words (D.world depot.old) (D.world depot.new) end) }
    ensures stops { OnErr result (IsTrue (D.world depot.old).tells → (words : List (List ℕ)) → IsInfo words file.now →
        StopsInInfo words (D.world depot.old) (D.world depot.new)) }
    ensures touches { Runs (tells_of file.now (D.world depot.new)) (D.world depot.old) (D.world depot.new) }
    ensures ended { IfOk result (NeedsRise (D.world depot.old) (D.world depot.new)) }
    ensures cause { StopsFor (D.world depot.old) (D.world depot.new) result }
{
    let Some(number) = depot.find(file)? else {
        return Ok(End::Missing(file));
    };
    let start = read_start(alloc, depot, number)?;
    match describe(alloc, &start)? {
        Description::Refused(reason) => Ok(End::Refused(file, reason)),
        Description::Text(text) => {
            depot.print(&text)?;
            Ok(End::Done)
        }
    }
}
