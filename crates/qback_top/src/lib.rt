//! The commands of the program, over any depot and console.
//!
//! [`run_files`] takes the words and the depot, does everything, and answers the status. What it promises is said by
//! `specs/Ends.antt`: which end is due by the words and the files, and what each end leaves.
#![tactic(auto)]

ghost use Rattle.std.specs.Prelude.{◌≡◌, ◌↔◌, ◌≤◌, ◌⊎◌, IsTrue, map, string_bytes};
ghost use Rattle.disk_model.specs.World.{World, Rose};
ghost use Rattle.qback_top.specs.Words.{HaveNoForm};
ghost use Rattle.qback_top.specs.Ends.{EndsAsDue, Touches};

mod answers;
mod commands;
mod creations;
mod description;
mod drive;
mod end;
mod image;
mod infos;
pub mod laws;
mod opening;
mod replay;
mod replays;
mod stop;
mod words;

use disk_model::{Console, Depot};
use end::End;
use std::alloc::Global;
use stop::Stop;
pub use words::{Task, WordsRefusal, read_words};

/// Runs one command on the files of a depot, and answers its status. The words are those after the program's name.
///
/// | words | does |
/// |---|---|
/// | `create-source FILE SIZE CLUSTERBITS ID` | makes an empty disk, and prints `made FILE` |
/// | `create-target FILE SIZE CLUSTERBITS [BACKING]` | makes an empty backup, and prints `made FILE` |
/// | `info FILE` | prints what a file is |
/// | `replay FILE SCRIPT` | carries out a script's lines on an image, and prints their answers |
///
/// Statuses: 0 done, 1 words without a form, 2 a file that is missing or refused, 3 a device fault, 4 want of memory, 5 a
/// script line without a form, 8 the file to be made is there. Each but 0 has its line on the console.
pub fn run_files<D: Depot + Console>(alloc: Global, words: &[String], depot: &mut D) -> u8
    // 1 comes exactly where the words have no form.
    ensures words { (result ≡ 1) ↔ HaveNoForm (map string_bytes words.now) }
    // Where files are told, the run ends as is due.
    ensures due { IsTrue (D.world depot.old).tells → EndsAsDue (map string_bytes words.now) (D.world depot.old) (D.world depot.new) result }
    // 3 comes only where a call on the outside failed, and there is no other status.
    ensures fault { result ≡ 3 → Rose (D.world depot.old).faults.shared (D.world depot.new).faults.shared }
    ensures known { (result ≤ 5) ⊎ (result ≡ 8) }
    // No file is touched but the one that the command works on.
    ensures touches { Touches (map string_bytes words.now) (D.world depot.old) (D.world depot.new) }
{
    match read_words(alloc, words) {
        Err(WordsRefusal::NoForm) => end::report(depot, &End::NoForm),
        Err(WordsRefusal::Memory) => end::report(depot, &End::Stopped(Stop::Memory)),
        Ok(task) => {
            let end = commands::carry_out(alloc, &task, depot);
            end::report(depot, &end)
        }
    }
}
