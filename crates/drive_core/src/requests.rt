//! A drive over an image serves them.

ghost use Rattle.std.specs.Prelude.{◌≡◌, ◌<◌, ℕ, List, Bool, if◌then◌else◌};
ghost use Rattle.std.proofs.Common.{refl};
ghost use Rattle.core_events.specs.declared.answers.Reply.TheVariants as reply;
ghost use Rattle.core_events.specs.declared.answers.Errno.TheVariants as errno;
ghost use Rattle.disk_model.specs.World.{World, only_file};
ghost use Rattle.disk_model.specs.World as worlds;
ghost use Rattle.core_events.specs.Views.{plain_request};
ghost use Rattle.drive_core.specs.Drive as drives;
ghost use Rattle.drive_core.specs.Settling.{Settles};

use crate::drive::Drive;
use crate::serving::Serves;
use core_events::{Command, Errno, Event, Memory, Reply, Request, Way, Work};
use core_layers::Image;
use disk_model::{Depot, WriteRefusal};
use span_algebra::Runs;
use std::alloc::AllocError;

/// The longest read or write, in bytes.
const LONGEST: u64 = 1 << 25;

// Whether a request's way leads to the drive.
fn is_on_drive(way: &Way) -> bool
    ensures { result ≡ drives.on_drive way.now }
{
    match way {
        Way::Node(name) => name.items.as_slice() == b"drive0".as_slice(),
        Way::Export(_) => false,
    }
}

impl<I: Image + Drop> Drive<I> {
    // The next event is carried out.
    fn begin(&mut self)
        ensures drive { record { facts = I.facts self.new.image; room = I.room self.new.image; broken = I.broken self.new.image; event = self.new.event; ended = self.new.ended }
            ≡ drives.next (record { facts = I.facts self.old.image; room = I.room self.old.image; broken = I.broken self.old.image; event = self.old.event; ended = self.old.ended }) }
        ensures event { I.event self.new.image ≡ self.new.event }
        ensures space { (w : World) → I.space self.new.image w ≡ I.space self.old.image w }
        ensures holds { (w : World) (disk : List ℕ) (mixed : List (List ℕ)) → I.holds self.old.image w disk mixed → I.holds self.new.image w disk mixed }
    {
        self.event = self.event.saturating_add(1);
        self.image.set_event(self.event);
    }

    // Whether a request's range leaves the disk.
    fn leaves_disk(&self, request: &Request) -> bool
        ensures { result ≡ drives.leaves_disk (drives.shown_of (record { facts = I.facts self.now.image; room = I.room self.now.image; broken = I.broken self.now.image; event = self.now.event; ended = self.now.ended })) (plain_request request.now) }
    {
        let size = self.image.size();
        request.offset > size || request.length > size - request.offset
    }

    // Syncs the image after a write, where that was asked.
    fn settle<D: Depot>(&mut self, depot: &mut D, fua: bool) -> Reply
        requires given { (I.facts self.old.image).file < (D.world depot.old).given }
        ensures settles { (ok : Bool) × (result ≡ (if ok then reply.Done else reply.Fault errno.Io)) × Settles fua ok (I.facts self.old.image) (I.space self.old.image (D.world depot.old)).cluster
            (I.event self.old.image) (I.broken self.old.image) (I.broken self.new.image) (I.holds self.old.image (D.world depot.old)) (I.holds self.new.image (D.world depot.new)) (D.world depot.old) (D.world depot.new) }
        ensures space { I.space self.new.image (D.world depot.new) ≡ I.space self.old.image (D.world depot.old) }
        ensures facts { I.facts self.new.image ≡ I.facts self.old.image }
        ensures event { self.new.event ≡ self.old.event }
        ensures ended { self.new.ended ≡ self.old.ended }
        ensures run { worlds.Runs (only_file (I.facts self.old.image).file) (D.world depot.old) (D.world depot.new) }
    {
        if !fua {
            return Reply::Done;
        }
        match self.image.sync(depot) {
            Ok(()) => Reply::Done,
            Err(_) => Reply::Fault(Errno::Io),
        }
    }
}

impl<I: Image + Drop> Serves for Drive<I> {
    ghost shown = { λ d. drives.shown_of (record { facts = I.facts d.image; room = I.room d.image; broken = I.broken d.image; event = d.event; ended = d.ended }) };

    ghost keeps = { λ d. drives.Keeps (record { facts = I.facts d.image; room = I.room d.image; broken = I.broken d.image; event = d.event; ended = d.ended }) (I.holds d.image) (I.space d.image) };

    fn deny(&self, request: &Request) -> Option<Errno> {
        let bad = match &request.work {
            Work::Read | Work::Write { .. } => self.leaves_disk(request)
                || request.length > LONGEST,
            Work::Zero { .. } => self.leaves_disk(request),
            Work::Flush => false,
            Work::Status { context, .. } => {
                self.leaves_disk(request)
                    || request.length == 0
                    || context.items.as_slice() != b"base:allocation".as_slice()
            }
        };
        if !is_on_drive(&request.way) || bad {
            Some(Errno::Invalid)
        } else if self.image.broken_at().is_some() {
            Some(Errno::Io)
        } else {
            None
        }
    }

    fn answer_denied<D: Depot>(&mut self, depot: &mut D, request: &Request, errno: Errno) -> Reply {
        self.begin();
        Reply::Fault(errno)
    }

    fn read<D: Depot>(&mut self, depot: &mut D, request: &Request, bytes: &mut Vec<u8>) -> Reply {
        self.begin();
        bytes.clear();
        bytes.resize(request.length as usize, 0).unwrap();
        match self.image.read(depot, request.offset, bytes.as_mut_slice()) {
            Ok(()) => Reply::Bytes,
            Err(_) => Reply::Fault(Errno::Io),
        }
    }

    fn status<D: Depot>(
        &mut self,
        depot: &mut D,
        request: &Request,
        one: bool,
        runs: &mut Runs,
    ) -> Reply {
        self.begin();
        runs.items.clear();
        match self
            .image
            .kinds(depot, request.offset, request.length, runs)
        {
            Ok(()) => {
                if one {
                    runs.items.truncate(1);
                }
                Reply::Runs
            }
            Err(_) => Reply::Fault(Errno::Io),
        }
    }

    fn write<D: Depot>(&mut self, depot: &mut D, request: &Request, fua: bool) -> Reply {
        self.begin();
        let bytes = request.bytes.items.as_slice();
        match self.image.write(depot, request.offset, bytes) {
            Ok(()) => self.settle(depot, fua),
            Err(WriteRefusal::NoRoom) => Reply::Fault(Errno::NoSpace),
            Err(WriteRefusal::Failed) => Reply::Fault(Errno::Io),
        }
    }

    fn zero<D: Depot>(&mut self, depot: &mut D, request: &Request, fua: bool) -> Reply {
        self.begin();
        match self.image.zero(depot, request.offset, request.length) {
            Ok(()) => self.settle(depot, fua),
            Err(_) => Reply::Fault(Errno::Io),
        }
    }

    fn write_zeros<D: Depot>(&mut self, depot: &mut D, request: &Request, fua: bool) -> Reply {
        self.begin();
        match self
            .image
            .write_zeros(depot, request.offset, request.length)
        {
            Ok(()) => self.settle(depot, fua),
            Err(WriteRefusal::NoRoom) => Reply::Fault(Errno::NoSpace),
            Err(WriteRefusal::Failed) => Reply::Fault(Errno::Io),
        }
    }

    fn flush<D: Depot>(&mut self, depot: &mut D, request: &Request) -> Reply {
        self.begin();
        match self.image.sync(depot) {
            Ok(()) => Reply::Done,
            Err(_) => Reply::Fault(Errno::Io),
        }
    }

    fn tell<D: Depot>(&mut self, depot: &mut D, event: &Event) -> Result<Reply, Memory> {
        match event {
            Event::Monitor(command) => match command {
                Command::Quit => {
                    self.begin();
                    self.ended = true;
                    Ok(Reply::Done)
                }
                _ => Err(AllocError),
            },
            _ => {
                self.begin();
                Ok(Reply::Done)
            }
        }
    }

    ghost alone = { λ d. (refl, refl, refl, refl, refl) };
}
