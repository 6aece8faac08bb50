//! How a session begins.

ghost use Rattle.std.specs.Prelude.{◌≡◌, ◌<◌, ℕ, List, [], ◌∷◌, IsTrue, IfOk, IfErr};
ghost use Rattle.disk_model.specs.World.{World, Runs, only_file};
ghost use Rattle.plain_model.specs.History.{History, IsHistory};
ghost use Rattle.core_node.specs.Standing.{HasFiles};
ghost use Rattle.core_node.specs.Rest.{Directory, IsReady};
ghost use Rattle.core_node.specs.Ends.{Opened, OpensWithin, NotOpenedFor};
ghost use Rattle.toy_image.specs.Images.{Opens};
ghost use Rattle.toy_core.specs.Toy.{IsUnopened, Suits, shown, Keeps};

use crate::toy::{Source, Toy};
use core_events::ExportList;
use disk_model::{Depot, FileNo};
use first_sector::rewrite_first_sector;
use image_model::OpenRefusal;
use std::alloc::Global;
use toy_image::{NotLooked, head, look};

/// Why an image isn't opened of which it isn't known what it is.
fn unopened(why: NotLooked) -> OpenRefusal
    ensures { IsUnopened result why }
{
    match why {
        NotLooked::Other => OpenRefusal::NotAdopted,
        NotLooked::Failed => OpenRefusal::Failed,
        NotLooked::Memory => OpenRefusal::Memory,
    }
}

impl Toy {
    /// Begins a session on an image. What is promised of it holds where it is of the form.
    pub fn begin<D: Depot>(alloc: Global, depot: &mut D, file: FileNo) -> Result<Toy, OpenRefusal>
        requires given { file.0 < (D.world depot.old).given }
        ensures opened { IfOk result (λ toy. Suits file.0 (D.world depot.old) → Opened file.0 (shown toy) (Keeps toy (D.world depot.new)) (D.world depot.old) (D.world depot.new)) }
        ensures within { (d : Directory) (id : List ℕ) (h : History) → Suits file.0 (D.world depot.old) → IsTrue (D.world depot.old).tells → IsHistory h →
            IsReady (d ∷ []) id h ((D.world depot.old).seen file.0) → OpensWithin file.0 d id h (D.world depot.old) (D.world depot.new) }
        ensures cause { IfErr result (λ why. Suits file.0 (D.world depot.old) → NotOpenedFor why file.0 (D.world depot.old) (D.world depot.new)) }
        ensures files { IfOk result (λ toy. HasFiles (shown toy) (D.world depot.new)) }
        ensures run { Runs (only_file file.0) (D.world depot.old) (D.world depot.new) }
    {
        let (mut image, header) = match look(alloc, depot, file) {
            Ok(found) => found,
            Err(why) => return Err(unopened(why)),
        };
        if image.epoch == u64::MAX {
            return Err(OpenRefusal::EpochSpent);
        }
        let sector = head(header);
        match rewrite_first_sector(depot, file, &sector) {
            Ok(()) => {}
            Err(_) => return Err(OpenRefusal::Failed),
        }
        image.epoch += 1;
        let exports = ExportList {
            items: Vec::new(alloc),
        };
        Ok(Toy {
            source: Source {
                file,
                image,
                exports,
            },
            event: 0,
            broken: None,
        })
    }
}
