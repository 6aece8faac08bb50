//! How a session begins and ends.

ghost use Rattle.std.specs.Prelude.{◌≡◌, ◌<◌, ℕ, List, [], ◌∷◌, None, IsTrue, IfOk, IfErr, OnOk};
ghost use Rattle.disk_model.specs.World.{World, Runs, only_file, Holds};
ghost use Rattle.core_events.specs.Views.{plain_answer};
ghost use Rattle.plain_model.specs.History.{History, IsHistory};
ghost use Rattle.core_node.specs.Standing.{HasFiles};
ghost use Rattle.core_node.specs.Rest.{Directory, State, IsReady, IsSafe};
ghost use Rattle.core_node.specs.Ends.{Opened, OpensWithin, NotOpenedFor, Closes, Closed, NotClosedFor, NotClosedBy};
ghost use Rattle.drive_core.specs.Drive as drives;

use crate::drive::Drive;
use core_events::{Answer, ExportList};
use core_layers::Image;
use disk_model::{Depot, FileNo};
use image_model::{CloseRefusal, OpenRefusal};
use std::alloc::Global;

impl<I: Image + Drop> Drive<I> {
    /// Begins a session on an image that stores no bitmaps.
    pub fn open<D: Depot>(
        alloc: Global,
        depot: &mut D,
        file: FileNo,
    ) -> Result<Drive<I>, OpenRefusal>
        requires given { file.0 < (D.world depot.old).given }
        requires suits { IsTrue (D.world depot.old).tells → drives.Opens ((D.world depot.old).seen file.0) }
        ensures opened { IfOk result (λ d. Opened file.0
            (drives.shown_of (record { facts = I.facts d.image; room = I.room d.image; broken = I.broken d.image; event = d.event; ended = d.ended }))
            (drives.Keeps (record { facts = I.facts d.image; room = I.room d.image; broken = I.broken d.image; event = d.event; ended = d.ended }) (I.holds d.image) (I.space d.image) (D.world depot.new))
            (D.world depot.old) (D.world depot.new)) }
        ensures within { (d : Directory) (allows : List Directory) (id : List ℕ) (h : History) (disks : List (List ℕ)) → IsTrue (D.world depot.old).tells → IsHistory h →
            IsReady (d ∷ []) id h ((D.world depot.old).seen file.0) → Holds file.0 (IsReady allows id h) (IsSafe allows id h disks) (D.world depot.old) →
            OpensWithin file.0 d id h (D.world depot.old) (D.world depot.new) }
        ensures cause { IfErr result (λ why. NotOpenedFor why file.0 (D.world depot.old) (D.world depot.new)) }
        ensures run { Runs (only_file file.0) (D.world depot.old) (D.world depot.new) }
    {
        let image = I::open(alloc, depot, file)?;
        let exports = ExportList {
            items: Vec::new(alloc),
        };
        Ok(Drive {
            image,
            event: 0,
            ended: false,
            exports,
        })
    }

    /// Ends it. No job runs, so no notice is due.
    pub fn close<D: Depot>(self, depot: &mut D, answer: &mut Answer) -> Result<(), CloseRefusal>
        requires files { HasFiles (drives.shown_of (record { facts = I.facts self.image; room = I.room self.image; broken = I.broken self.image; event = self.event; ended = self.ended })) (D.world depot.old) }
        ensures closes { (s : State) → IsTrue (D.world depot.old).tells →
            drives.Keeps (record { facts = I.facts self.image; room = I.room self.image; broken = I.broken self.image; event = self.event; ended = self.ended }) (I.holds self.image) (I.space self.image) (D.world depot.old) s →
            Closes (I.facts self.image).file (I.facts self.image).id s (D.world depot.old) (D.world depot.new) }
        ensures closed { OnOk result ((s : State) → IsTrue (D.world depot.old).tells →
            drives.Keeps (record { facts = I.facts self.image; room = I.room self.image; broken = I.broken self.image; event = self.event; ended = self.ended }) (I.holds self.image) (I.space self.image) (D.world depot.old) s →
            Closed (I.facts self.image).file (I.facts self.image).id s (D.world depot.old) (D.world depot.new) (plain_answer answer.new)) }
        ensures refused { IfErr result (λ why. (s : State) → IsTrue (D.world depot.old).tells →
            drives.Keeps (record { facts = I.facts self.image; room = I.room self.image; broken = I.broken self.image; event = self.event; ended = self.ended }) (I.holds self.image) (I.space self.image) (D.world depot.old) s →
            NotClosedFor why (I.facts self.image).file (I.facts self.image).id s (D.world depot.new)) }
        ensures cause { IfErr result (λ why. NotClosedBy why (drives.shown_of (record { facts = I.facts self.image; room = I.room self.image; broken = I.broken self.image; event = self.event; ended = self.ended })) (D.world depot.old) (D.world depot.new)) }
        ensures whole { OnOk result (I.broken self.image ≡ None) }
        ensures run { Runs (only_file (I.facts self.image).file) (D.world depot.old) (D.world depot.new) }
    {
        answer.notices.items.clear();
        self.image.close(depot)
    }
}
