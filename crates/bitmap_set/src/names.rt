//! Names of bitmaps.

ghost use Rattle.std.specs.Prelude.{◌≡◌, ◌==◌, ◌&&◌, not, nat_le, IfOk};
ghost use Rattle.std.specs.List.{list_all};
ghost use Rattle.std.specs.Str.{is_utf8};
ghost use Rattle.bitmap_model.specs.Bitmaps.{is_name};

use span_algebra::Name;
use std::alloc::{AllocError, Global};
use std::str;

/// How many bytes a name has at most.
const LONGEST: usize = 1023;

// Whether bytes are UTF-8.
#[tactic(auto, using(crate::proofs::Texts::utf8_tests))]
fn is_utf8(bytes: &[u8]) -> bool
    ensures { result ≡ is_utf8 bytes.now }
{
    str::from_utf8(bytes).is_ok()
}

// Whether no byte is below 32 or equal to 127.
fn is_printable(bytes: &[u8]) -> bool
    ensures { result ≡ list_all (λ b. nat_le 32 b && not (b == 127)) bytes.now }
{
    bytes.iter().all(|b| 32 <= *b && *b != 127)
}

/// Whether bytes are the name of a bitmap: 1 to 1,023 bytes of UTF-8 without control characters.
pub(crate) fn is_lawful(name: &[u8]) -> bool
    ensures { result ≡ is_name name.now }
{
    !name.is_empty() && name.len() <= LONGEST && is_utf8(name) && is_printable(name)
}

/// The same name once more.
pub(crate) fn copy_name(alloc: Global, name: &Name) -> Result<Name, AllocError>
    ensures { IfOk result (λ copy. copy ≡ name.now) }
{
    Ok(Name {
        items: name.items.as_slice().to_vec(alloc)?,
    })
}
