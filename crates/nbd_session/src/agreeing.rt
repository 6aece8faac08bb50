//! How a client and the server come to agree.

ghost use Rattle.std.specs.Prelude.{◌≡◌, [], IfOk, if◌then◌else◌};
ghost use Rattle.nbd_model.specs.Sessions.{begun, new_session, without_selection};
ghost use Rattle.nbd_session.specs.Parts.{plain_agreed};

use crate::agreed::{Agreed, Phase};
use core_events::{Memory, Names};
use span_algebra::Name;
use std::alloc::Global;

fn no_name(alloc: Global) -> Name
    ensures { result ≡ [] }
{
    Name {
        items: Vec::new(alloc),
    }
}

/// The name once more.
pub(crate) fn copy_of(alloc: Global, name: &Name) -> Result<Name, Memory>
    ensures { IfOk result (λ copy. copy ≡ name.now) }
{
    Ok(Name {
        items: name.items.as_slice().to_vec(alloc)?,
    })
}

impl Agreed {
    /// What is agreed on at first.
    pub(crate) fn new(alloc: Global) -> Agreed
        ensures { plain_agreed result ≡ new_session }
    {
        Agreed {
            phase: Phase::Greeted,
            export: no_name(alloc),
            no_zeroes: false,
            structured: false,
            selected: Names {
                items: Vec::new(alloc),
            },
            selected_of: no_name(alloc),
        }
    }

    pub(crate) fn drop_selection(&mut self)
        ensures { plain_agreed self.new ≡ without_selection (plain_agreed self.old) }
    {
        self.selected.items.clear();
        self.selected_of.items.clear();
    }

    /// The transmission begins, for this export. A selection is for its own export.
    pub(crate) fn begin(&mut self, export: Name)
        ensures { plain_agreed self.new ≡ begun export (plain_agreed self.old) }
    {
        if !self.selected_of.is(&export) {
            self.drop_selection();
        }
        self.phase = Phase::Transmitting;
        self.export = export;
    }

    /// The transmission begins where the client goes on, and only informs itself otherwise.
    pub(crate) fn begin_if(&mut self, goes: bool, export: Name)
        ensures { plain_agreed self.new ≡ (if goes then begun export (plain_agreed self.old) else plain_agreed self.old) }
    {
        if goes {
            self.begin(export);
        }
    }
}
