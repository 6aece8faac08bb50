//! Why there is no header.

ghost use Rattle.std.specs.Prelude.{◌≡◌, ◌≢◌, ◌⊎◌};
ghost use Rattle.qc_layout.specs.declared.header.HeaderFault.TheVariants as header_faults;
ghost use Rattle.image_header.specs.declared.refusals.NoHeader.TheVariants as refusals;

use disk_model::Failed;
use qc_layout::HeaderFault;
use std::alloc::AllocError;

/// Why an image's header couldn't be read.
#[derive(Clone, Copy, Debug, PartialEq, Eq)]
pub enum NoHeader {
    /// The first rule of a header that the file fails; never `HeaderFault::Memory`.
    Fault(HeaderFault),
    /// A call on the file failed.
    Failed,
    /// There was no memory.
    Memory,
}

impl NoHeader {
    // That of a reader of bytes.
    pub(crate) fn of(fault: HeaderFault) -> NoHeader
        ensures { (result ≡ refusals.Memory) ⊎ ((fault ≢ header_faults.Memory) × (result ≡ refusals.Fault fault)) }
    {
        if fault == HeaderFault::Memory {
            NoHeader::Memory
        } else {
            NoHeader::Fault(fault)
        }
    }
}

impl From<Failed> for NoHeader {
    ghost from_gives = { λ _ e. e ≡ refusals.Failed };

    fn from(_e: Failed) -> NoHeader {
        NoHeader::Failed
    }
}

impl From<AllocError> for NoHeader {
    ghost from_gives = { λ _ e. e ≡ refusals.Memory };

    fn from(_e: AllocError) -> NoHeader {
        NoHeader::Memory
    }
}
