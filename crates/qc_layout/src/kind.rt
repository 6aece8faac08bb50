//! As what a file is read of which it isn't known what it is, and how much of it says so.

ghost use Rattle.std.specs.Prelude.{◌≡◌, ◌≤◌};
ghost use Rattle.qc_layout.specs.Disks.{IsReadAs, bits_of};
ghost use Rattle.qc_layout.specs.Extensions.{list_end};
ghost use Rattle.qc_layout.specs.Laws.{start_length};

use crate::extension::{self, Next, OWN_KIND, next_extension, padded};
use crate::header::Part;
use crate::numbers::number_32;

/// Where the list of extensions ends, whatever the cluster bits are.
fn list_end(bytes: &[u8]) -> u64
    ensures end { result ≡ list_end (bits_of bytes.now) }
    ensures near { result ≤ 65536 }
{
    extension::list_end(number_32(bytes, 20).min(21))
}

/// How many of a file's first bytes say what its header says. These bytes are its first ones, 24 at least.
pub fn start_length(bytes: &[u8]) -> u64
    ensures { result ≡ start_length bytes.now }
{
    list_end(bytes).max(512)
}

/// A backup is a file in which the first extension of this project's kind has 64 bytes, as far as the list of extensions
/// can be read, and any other is a disk. It isn't tested whether the header passes its rules.
pub fn kind_of(bytes: &[u8]) -> Part
    ensures { IsReadAs bytes.now result }
{
    let end = list_end(bytes);
    let mut at = u64::from(number_32(bytes, 100));
    loop {
        match next_extension(bytes, end, at) {
            Next::End => return Part::Source,
            Next::Broken => return Part::Source,
            Next::Whole(e) => {
                if e.kind == OWN_KIND {
                    return if e.length == 64 {
                        Part::Target
                    } else {
                        Part::Source
                    };
                }
                at = e.place + padded(e.length);
            }
        }
    }
}
