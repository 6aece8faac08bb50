//! The command `replay FILE SCRIPT`.

ghost use Rattle.std.specs.Prelude.{◌≡◌, ◌≢◌, ◌↔◌, ◌+◌, ◌++◌, ◌<◌, ◌≤◌, ◌^◌, ℕ, List, length, map, codes, MatchOption, OnOk, OnErr, IfOk, Some, IsTrue, string_bytes};
ghost use Rattle.disk_model.specs.Files.{reading};
ghost use Rattle.disk_model.specs.World.{World, Runs, IsGiven, reads_of, PrintCause, PrintsPart, only_text};
ghost use Rattle.qback_top.specs.Words.{IsReplay};
ghost use Rattle.qback_top.specs.Endings.{works_on_names};
ghost use Rattle.qback_top.specs.Replays.{AreThere};
ghost use Rattle.qback_top.specs.Stops.{StopsFor};
ghost use Rattle.qback_top.specs.Shown.{ShowsReplay, StopsInReplay, NeedsRise, status_at};

use crate::end::End;
use crate::opening::open_image;
use crate::replay::run_lines;
use crate::stop::Stop;
use disk_model::{Console, Depot, FileNo};
use script_codec::first_bad_line;
use std::alloc::Global;

/// Looks the files up, and carries the script out.
pub fn replay_files<'a, D: Depot + Console>(
    alloc: Global,
    file: &'a str,
    script: &'a str,
    depot: &mut D,
) -> Result<End<'a>, Stop>
    ensures form { IfOk result (λ end. status_at end ≢ 1) }
    ensures shows { IfOk result (λ end. IsTrue (D.world depot.old).tells → (words : List (List ℕ)) → IsReplay words file.now script.now →
        ShowsReplay words (D.world depot.old) (D.world depot.new) end) }
    ensures stops { OnErr result (IsTrue (D.world depot.old).tells → (words : List (List ℕ)) → IsReplay words file.now script.now →
        StopsInReplay words (D.world depot.old) (D.world depot.new)) }
    ensures file { Runs (works_on_names file.now script.now (D.world depot.new)) (D.world depot.old) (D.world depot.new) }
    ensures ended { IfOk result (NeedsRise (D.world depot.old) (D.world depot.new)) }
    ensures cause { StopsFor (D.world depot.old) (D.world depot.new) result }
{
    let Some(image) = depot.find(file)? else {
        return Ok(End::Missing(file));
    };
    let Some(text) = depot.find(script)? else {
        return Ok(End::Missing(script));
    };
    replay_found(alloc, file, script, image, text, depot)
}

/// The whole content of a file, if it isn't too long.
fn read_short<D: Depot>(
    alloc: Global,
    depot: &mut D,
    file: FileNo,
    limit: u64,
) -> Result<Option<Vec<u8>>, Stop>
    requires given { file.0 < (D.world depot.old).given }
    requires limit { limit ≤ 2 ^ 40 }
    ensures content { IfOk result (λ content. IsTrue (D.world depot.old).tells →
        MatchOption content (limit < length ((D.world depot.old).seen file.0))
        (λ v. (length ((D.world depot.old).seen file.0) ≤ limit) × (v.items ≡ (D.world depot.old).seen file.0))) }
    ensures short { IfOk result (λ content. MatchOption content (Unit {0}) (λ v. length v.items ≤ limit)) }
    ensures run { Runs (reads_of file.0) (D.world depot.old) (D.world depot.new) }
    ensures cause { StopsFor (D.world depot.old) (D.world depot.new) result }
{
    let length = depot.size(file)?;
    if length > limit {
        return Ok(None);
    }
    let mut content = vec![in alloc; 0u8; length as usize]?;
    depot.read_at(file, 0, &mut content)?;
    Ok(Some(content))
}

/// Carries the script out, both files being there.
fn replay_found<'a, D: Depot + Console>(
    alloc: Global,
    file: &'a str,
    script: &'a str,
    image: FileNo,
    text: FileNo,
    depot: &mut D,
) -> Result<End<'a>, Stop>
    requires image { IsGiven image.0 file.now (D.world depot.old) }
    requires text { IsGiven text.0 script.now (D.world depot.old) }
    ensures form { IfOk result (λ end. status_at end ≢ 1) }
    ensures shows { IfOk result (λ end. IsTrue (D.world depot.old).tells → (words : List (List ℕ)) → AreThere words (D.world depot.old) file.now script.now image.0 text.0 →
        ShowsReplay words (D.world depot.old) (D.world depot.new) end) }
    ensures stops { OnErr result (IsTrue (D.world depot.old).tells → (words : List (List ℕ)) → AreThere words (D.world depot.old) file.now script.now image.0 text.0 →
        StopsInReplay words (D.world depot.old) (D.world depot.new)) }
    ensures file { Runs (works_on_names file.now script.now (D.world depot.new)) (D.world depot.old) (D.world depot.new) }
    ensures ended { IfOk result (NeedsRise (D.world depot.old) (D.world depot.new)) }
    ensures cause { StopsFor (D.world depot.old) (D.world depot.new) result }
{
    let Some(content) = read_short(alloc, depot, text, 1 << 28)? else {
        return Ok(End::Refused(script, "ScriptTooLong"));
    };
    if let Some(n) = first_bad_line(alloc, &content)? {
        return Ok(End::BadLine(n));
    }
    let Some(image) = open_image(depot, image)? else {
        return Ok(End::Refused(file, "Unbuilt"));
    };
    run_lines(alloc, depot, image, &content)?;
    Ok(End::Done)
}
