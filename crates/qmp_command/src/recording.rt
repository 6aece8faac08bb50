//! What a recording holds of a message.

ghost use Rattle.std.specs.Prelude.{◌≡◌, option_map, IfOk, IfSome};
ghost use Rattle.monitor_model.specs.Recorded.{recorded_text, ReadsAlike};

use crate::floats::has_float;
use core_events::Memory;
use serde_json::Value;
use span_algebra::Bytes;
use std::alloc::{AllocError, Global};

/// The message on one line, as a recording holds it: no blanks, and members in byte order of their names.
///
/// It is read as what the message is read as. There is none where the message is no JSON, nests deeper than 127 or has a
/// number that is no whole one of 64 bits.
pub fn recorded_text(alloc: Global, message: &[u8]) -> Result<Option<Bytes>, Memory>
    ensures text { IfOk result (λ found. option_map (λ text. text.items.items) found ≡ recorded_text message.now) }
    ensures alike { IfOk result (λ found. IfSome found (λ text. ReadsAlike text.items.items message.now)) }
{
    match Value::from_slice(alloc, message) {
        Ok(value) => {
            if has_float(&value) {
                return Ok(None);
            }
            Ok(Some(Bytes {
                items: value.to_vec(alloc)?,
            }))
        }
        Err(error) => {
            if error.is_memory() {
                Err(AllocError)
            } else {
                Ok(None)
            }
        }
    }
}
