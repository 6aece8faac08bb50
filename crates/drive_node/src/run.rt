//! A whole session over it.

ghost use Rattle.std.specs.Prelude.{◌≡◌, ◌<◌, ◌≤◌, ℕ, List, [], Option, Some, IsTrue, IfErr};
ghost use Rattle.disk_model.specs.World.{World, Runs, IsLeftAt};
ghost use Rattle.core_events.specs.Events as events;
ghost use Rattle.core_events.specs.Views.{plain_answer};
ghost use Rattle.plain_model.specs.History.{History};
ghost use Rattle.plain_model.specs.Step.{IsWhole};
ghost use Rattle.core_node.specs.Rest.{Directory, Files, AreLawful};
ghost use Rattle.core_loop.specs.Course.{Heard, asked, run_parts};
ghost use Rattle.core_loop.specs.Sessions.{AreApart, Covers, Session, StoppedFor};
ghost use Rattle.core_loop.specs.Crashes.{WereThere, Survives};
ghost use Rattle.drive_core.specs.Drive.{Opens, no_targets};

use crate::node::Core;
use core_events::Answer;
use core_layers::Image;
use core_loop::{Source, Stop, run_session};
use disk_model::{Console, Depot, FileNo};
use std::alloc::Global;

/// Opens the image, which stores no bitmaps, carries out the events, and closes it.
pub fn run_drive<I: Image + Drop, D: Depot + Console, S: Source<D>>(
    alloc: Global,
    depot: &mut D,
    file: FileNo,
    source: &mut S,
    answer: &mut Answer,
) -> Result<(), Stop>
    requires given { file.0 < (D.world depot.old).given }
    requires suits { IsTrue (D.world depot.old).tells → Opens ((D.world depot.old).seen file.0) }
    requires fresh { S.gave source.old ≡ [] }
    requires own_given { (f : ℕ) → S.own source.old f → f < (D.world depot.old).given }
    requires whole { (e : events.Event) → S.gives source.old e → IsWhole e }
    // What the session did, and that a crash at any moment of it is survived.
    ensures session { (files : Files) (allows : List Directory) (h : History) (disks : List (List ℕ)) → IsTrue (D.world depot.old).tells →
        (D.world depot.old).found ((D.world depot.old).named file.0) ≡ Some file.0 → files.source ≡ file.0 → AreLawful allows files h disks (D.world depot.old) →
        AreApart (S.own source.old) file.0 (D.world depot.old) → S.knows source.old (D.world depot.old) →
        Covers files (asked (S.gave source.new)) (D.world depot.old) →
        (session : Session no_targets (S.own source.old) allows files ((D.world depot.old).named file.0) h disks result (S.leaves_open source.new) (S.over source.new) (λ heard. S.goes source.old heard source.new) (S.gave source.new) (plain_answer answer.new) (D.world depot.old) (D.world depot.new)) ×
        (WereThere files (D.world depot.old) → (k : ℕ) (left : ℕ → Option (List ℕ)) → (D.world depot.old).now ≤ k → k ≤ (D.world depot.new).now → IsLeftAt (D.world depot.new) k left → Survives k left session) }
    ensures knows { (files : Files) (allows : List Directory) (h : History) (disks : List (List ℕ)) → IsTrue (D.world depot.old).tells →
        (D.world depot.old).found ((D.world depot.old).named file.0) ≡ Some file.0 → files.source ≡ file.0 → AreLawful allows files h disks (D.world depot.old) →
        AreApart (S.own source.old) file.0 (D.world depot.old) → Covers files (asked (S.gave source.new)) (D.world depot.old) →
        S.knows source.old (D.world depot.old) → S.knows source.new (D.world depot.new) }
    ensures goes { (heard : List Heard) × S.goes source.old heard source.new }
    ensures cause { IfErr result (λ why. StoppedFor (S.own source.old) why file.0 (D.world depot.old) (D.world depot.new)) }
    ensures run { Runs (run_parts file.0 (λ f. ⊥) (S.own source.old) (asked (S.gave source.new)) (D.world depot.new)) (D.world depot.old) (D.world depot.new) }
{
    run_session::<Core<I>, D, S>(alloc, depot, file, source, answer)
}
