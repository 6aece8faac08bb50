//! It is a core.

ghost use Rattle.toy_image.specs.Images as images;
ghost use Rattle.toy_core.specs.Toy as toys;
ghost use Rattle.toy_core.proofs.Laws as laws;

use core_events::{Answer, Event, ExportList, Memory};
use core_node::Node;
use disk_model::{Depot, FileNo};
use image_model::{CloseRefusal, OpenRefusal};
use std::alloc::Global;
use toy_core::Toy;

/// A toy core.
#[derive(Drop)]
pub struct Core {
    pub toy: Toy,
}

impl Node for Core {
    ghost shown = { λ c. toys.shown c.toy };

    ghost reading = { toys.no_targets };

    ghost opens = { images.Opens };

    ghost takes = { toys.Takes };

    ghost keeps = { λ c. toys.Keeps c.toy };

    fn open<D: Depot>(alloc: Global, depot: &mut D, file: FileNo) -> Result<Core, OpenRefusal> {
        match Toy::begin(alloc, depot, file) {
            Ok(toy) => Ok(Core { toy }),
            Err(why) => Err(why),
        }
    }

    fn step<D: Depot>(
        &mut self,
        depot: &mut D,
        event: &Event,
        answer: &mut Answer,
    ) -> Result<(), Memory> {
        self.toy.take_event(depot, event, answer)
    }

    fn exports(&self) -> &ExportList {
        &self.toy.source.exports
    }

    fn ended(&self) -> bool {
        false
    }

    fn close<D: Depot>(self, depot: &mut D, answer: &mut Answer) -> Result<(), CloseRefusal> {
        answer.notices.items.clear();
        if let Some(event) = self.toy.broken {
            return Err(CloseRefusal::Broken(event));
        }
        match depot.sync(self.toy.source.file) {
            Ok(()) => Ok(()),
            Err(_) => Err(CloseRefusal::Failed),
        }
    }

    ghost finds = { λ file held is. absurd is };

    ghost finds_one = { λ file a b is also. absurd is };

    ghost stands = { λ c w s keeps. laws.stands c.toy w s keeps };

    ghost safe = { λ c w s keeps. laws.safe c.toy w s keeps };

    ghost mixes = { λ c w s keeps. laws.mixes c.toy w s keeps };

    ghost spared = { λ c old new s spares keeps. laws.spared c.toy old new s spares keeps };
}
