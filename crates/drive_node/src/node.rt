//! It is a core.

ghost use Rattle.drive_core.specs.Drive as drives;
ghost use Rattle.drive_core.proofs.Laws as laws;

use core_events::{Answer, Event, ExportList, Memory};
use core_layers::Image;
use core_node::Node;
use disk_model::{Depot, FileNo};
use drive_core::{Drive, step};
use image_model::{CloseRefusal, OpenRefusal};
use std::alloc::Global;

/// A core over an image.
#[derive(Drop)]
pub struct Core<I: Image + Drop> {
    pub drive: Drive<I>,
}

impl<I: Image + Drop> Node for Core<I> {
    ghost shown = { λ c. drives.shown_of (record { facts = I.facts c.drive.image; room = I.room c.drive.image; broken = I.broken c.drive.image; event = c.drive.event; ended = c.drive.ended }) };

    ghost reading = { drives.no_targets };

    ghost opens = { drives.Opens };

    ghost takes = { drives.Takes };

    ghost keeps = { λ c. drives.Keeps (record { facts = I.facts c.drive.image; room = I.room c.drive.image; broken = I.broken c.drive.image; event = c.drive.event; ended = c.drive.ended }) (I.holds c.drive.image) (I.space c.drive.image) };

    fn open<D: Depot>(alloc: Global, depot: &mut D, file: FileNo) -> Result<Core<I>, OpenRefusal> {
        match Drive::open(alloc, depot, file) {
            Ok(drive) => Ok(Core { drive }),
            Err(why) => Err(why),
        }
    }

    fn step<D: Depot>(
        &mut self,
        depot: &mut D,
        event: &Event,
        answer: &mut Answer,
    ) -> Result<(), Memory> {
        step(&mut self.drive, depot, event, answer)
    }

    fn exports(&self) -> &ExportList {
        &self.drive.exports
    }

    fn ended(&self) -> bool {
        self.drive.ended
    }

    fn close<D: Depot>(self, depot: &mut D, answer: &mut Answer) -> Result<(), CloseRefusal> {
        self.drive.close(depot, answer)
    }

    ghost finds = { λ file held is. absurd is };

    ghost finds_one = { λ file a b is also. absurd is };

    ghost stands = { λ c w s keeps. laws.stands (I.has_space c.drive.image) (I.sizes c.drive.image) w s keeps };

    ghost safe = { λ c w s keeps. laws.safe (I.in_order c.drive.image) (I.bare c.drive.image) w s keeps };

    ghost mixes = { λ c w s keeps. laws.mixes w s keeps };

    ghost spared = { λ c old new s spares keeps. laws.spared (I.spared c.drive.image) (I.same_space c.drive.image) old new s spares keeps };
}
