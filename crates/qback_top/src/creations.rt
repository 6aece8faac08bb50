//! The commands `create-source FILE SIZE CLUSTERBITS ID` and `create-target FILE SIZE CLUSTERBITS [BACKING]`.

ghost use Rattle.std.specs.Prelude.{◌≡◌, ◌≢◌, ◌≤◌, ◌++◌, ℕ, List, length, true, IsTrue, IfOk, IfSome, OnOk, OnErr, option_map};
ghost use Rattle.disk_model.specs.World.{World, Runs, only_text, PrintsPart};
ghost use Rattle.backup_file.specs.Layout.{is_form};
ghost use Rattle.qback_top.specs.declared.words.Task.TheVariants.{CreateSource, CreateTarget};
ghost use Rattle.qback_top.specs.Words.{IsTask};
ghost use Rattle.qback_top.specs.Endings.{MakesAlone};
ghost use Rattle.qback_top.specs.Creations.{made_line};
ghost use Rattle.qback_top.specs.Stops.{StopsFor};
ghost use Rattle.qback_top.specs.Shown.{ShowsCreation, StopsInCreation, NeedsRise, status_at};

use crate::end::{End, say_parts};
use crate::stop::Stop;
use backup_file::{CreateRefusal, create_source, create_target};
use disk_model::{Console, Depot};
use std::alloc::Global;

/// Says that a file was made.
fn say_made<D: Console>(depot: &mut D, file: &str) -> Result<(), Stop>
    ensures printed { OnOk result (IsTrue (D.world depot.old).prints → (D.world depot.new).printed ≡ (D.world depot.old).printed ++ made_line file.now) }
    ensures part { PrintsPart (made_line file.now) (D.world depot.old) (D.world depot.new) }
    ensures run { Runs only_text (D.world depot.old) (D.world depot.new) }
    ensures cause { StopsFor (D.world depot.old) (D.world depot.new) result }
{
    say_parts(depot, b"made ", file.as_bytes(), b"\n")?;
    Ok(())
}

/// Makes an empty disk, and says so.
pub fn create_source_file<'a, D: Depot + Console>(
    alloc: Global,
    file: &'a str,
    size: u64,
    cluster_bits: u32,
    disk: [u8; 16],
    depot: &mut D,
) -> Result<End<'a>, Stop>
    requires { is_form cluster_bits size ≡ true }
    ensures form { IfOk result (λ end. status_at end ≢ 1) }
    ensures shows { IfOk result (λ end. IsTrue (D.world depot.old).tells → (words : List (List ℕ)) → IsTask words (CreateSource file.now size cluster_bits disk) →
        ShowsCreation words (D.world depot.old) (D.world depot.new) end) }
    ensures stops { OnErr result (IsTrue (D.world depot.old).tells → (words : List (List ℕ)) → IsTask words (CreateSource file.now size cluster_bits disk) →
        StopsInCreation words (D.world depot.old) (D.world depot.new)) }
    ensures touches { MakesAlone file.now (D.world depot.old) (D.world depot.new) }
    ensures ended { IfOk result (NeedsRise (D.world depot.old) (D.world depot.new)) }
    ensures cause { StopsFor (D.world depot.old) (D.world depot.new) result }
{
    match create_source(alloc, depot, file, size, cluster_bits, disk) {
        Ok(_) => {
            say_made(depot, file)?;
            Ok(End::Done)
        }
        Err(CreateRefusal::Exists) => Ok(End::Exists(file)),
        Err(CreateRefusal::Failed) => Err(Stop::Fault),
        Err(CreateRefusal::Memory) => Err(Stop::Memory),
    }
}

/// Makes an empty backup, and says so.
pub fn create_target_file<'a, D: Depot + Console>(
    alloc: Global,
    file: &'a str,
    size: u64,
    cluster_bits: u32,
    backing: Option<&str>,
    depot: &mut D,
) -> Result<End<'a>, Stop>
    requires form { is_form cluster_bits size ≡ true }
    requires backing { IfSome backing (λ b. (1 ≤ length b.now) × (length b.now ≤ 255)) }
    ensures form { IfOk result (λ end. status_at end ≢ 1) }
    ensures shows { IfOk result (λ end. IsTrue (D.world depot.old).tells → (words : List (List ℕ)) → IsTask words (CreateTarget file.now size cluster_bits (option_map (λ b. b.now) backing.entry)) →
        ShowsCreation words (D.world depot.old) (D.world depot.new) end) }
    ensures stops { OnErr result (IsTrue (D.world depot.old).tells → (words : List (List ℕ)) → IsTask words (CreateTarget file.now size cluster_bits (option_map (λ b. b.now) backing.entry)) →
        StopsInCreation words (D.world depot.old) (D.world depot.new)) }
    ensures touches { MakesAlone file.now (D.world depot.old) (D.world depot.new) }
    ensures ended { IfOk result (NeedsRise (D.world depot.old) (D.world depot.new)) }
    ensures cause { StopsFor (D.world depot.old) (D.world depot.new) result }
{
    match create_target(alloc, depot, file, size, cluster_bits, backing) {
        Ok(_) => {
            say_made(depot, file)?;
            Ok(End::Done)
        }
        Err(CreateRefusal::Exists) => Ok(End::Exists(file)),
        Err(CreateRefusal::Failed) => Err(Stop::Fault),
        Err(CreateRefusal::Memory) => Err(Stop::Memory),
    }
}
