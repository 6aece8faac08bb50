//! The command that a task is.

ghost use Rattle.std.specs.Prelude.{◌≡◌, ◌≢◌, ℕ, List, IsTrue, IsUtf8, option_map};
ghost use Rattle.disk_model.specs.World.{World, Runs};
ghost use Rattle.qback_top.specs.declared.words.Task.{Task};
ghost use Rattle.qback_top.specs.Words.{AreTexts, IsTextIfThere, IsTask};
ghost use Rattle.qback_top.specs.Shown.{Shows, NeedsRise, TouchesBy, status_at};

use crate::creations::{create_source_file, create_target_file};
use crate::end::End;
use crate::infos::tell;
use crate::replays::replay_files;
use crate::words::Task;
use disk_model::{Console, Depot};
use span_algebra::Name;
use std::alloc::Global;

/// A name as a text.
pub fn text_of(name: &Name) -> &str
    requires { IsUtf8 name.now }
    ensures { result.now ≡ name.now }
{
    match std::str::from_utf8(&name.items) {
        Ok(text) => text,
        Err(_) => unreachable!(),
    }
}

/// A name as a text, where there is one.
fn text_of_some(name: &Option<Name>) -> Option<&str>
    requires { IsTextIfThere name.now }
    ensures { option_map (λ t. t.now) result ≡ name.now }
{
    match name {
        Some(name) => Some(text_of(name)),
        None => None,
    }
}

/// Runs the command, and says how it ended.
pub fn carry_out<'a, D: Depot + Console>(alloc: Global, task: &'a Task, depot: &mut D) -> End<'a>
    requires texts { AreTexts task.now }
    requires said { (words : List (List ℕ)) × IsTask words task.now }
    ensures form { status_at result ≢ 1 }
    ensures shows { IsTrue (D.world depot.old).tells → (words : List (List ℕ)) → IsTask words task.now → Shows words (D.world depot.old) (D.world depot.new) result }
    ensures touches { TouchesBy task.now (D.world depot.old) (D.world depot.new) }
    ensures cause { NeedsRise (D.world depot.old) (D.world depot.new) result }
{
    let ended = match task {
        Task::CreateSource {
            file,
            size,
            cluster_bits,
            disk,
        } => create_source_file(alloc, text_of(file), *size, *cluster_bits, *disk, depot),
        Task::CreateTarget {
            file,
            size,
            cluster_bits,
            backing,
        } => create_target_file(
            alloc,
            text_of(file),
            *size,
            *cluster_bits,
            text_of_some(backing),
            depot,
        ),
        Task::Info { file } => tell(alloc, text_of(file), depot),
        Task::Replay { file, script } => {
            replay_files(alloc, text_of(file), text_of(script), depot)
        }
    };
    match ended {
        Ok(end) => end,
        Err(stop) => End::Stopped(stop),
    }
}
