//! Values of members that were tested, and of those that aren't there.

ghost use Rattle.std.specs.Prelude.{◌≡◌, map, option_map, codes, IfOk};
ghost use Rattle.serde_json.specs.View.{view};
ghost use Rattle.monitor_model.specs.Commands.{get, text_in, text_or, text_of, truth_of, number_in, items_in, is_word};
ghost use Rattle.qmp_command.specs.Views.{seen, members};

use core_events::Memory;
use serde_json::Value;
use span_algebra::Name;
use std::alloc::Global;

/// The value of a member, where there are such an object and such a member.
#[tactic(auto, using(crate::proofs::Looking::looks))]
pub(crate) fn member<'a>(object: Option<&'a Value>, name: &str) -> Option<&'a Value>
    ensures { seen result ≡ get name.now (members object.entry) }
{
    object?.get(name)
}

/// The text, where the value is one.
pub(crate) fn text_in(value: Option<&Value>) -> Option<&str>
    ensures { option_map (λ s. s.now) result ≡ text_in (seen value.entry) }
{
    value?.as_str()
}

/// Whether the value is this word.
pub(crate) fn is_word(value: Option<&Value>, word: &str) -> bool
    ensures { result ≡ is_word word.now (seen value.entry) }
{
    match text_in(value) {
        Some(text) => word == text,
        None => false,
    }
}

/// The text of a member, or the other one where it has none.
pub(crate) fn text_or<'a>(object: Option<&'a Value>, name: &str, other: &'a str) -> &'a str
    ensures { result.now ≡ text_or other.now name.now (members object.entry) }
{
    match text_in(member(object, name)) {
        Some(text) => text,
        None => other,
    }
}

/// The text of a member, or an empty one where it has none.
pub(crate) fn text_of<'a>(object: Option<&'a Value>, name: &str) -> &'a str
    ensures { result.now ≡ text_of name.now (members object.entry) }
{
    text_or(object, name, "")
}

/// A name of its own with this text.
pub(crate) fn name_of(alloc: Global, text: &str) -> Result<Name, Memory>
    ensures { IfOk result (λ name. name ≡ text.now) }
{
    Ok(Name {
        items: Vec::from_slice(alloc, text.as_bytes())?,
    })
}

/// The name that a member has as its text.
pub(crate) fn name_in(alloc: Global, object: Option<&Value>, name: &str) -> Result<Name, Memory>
    ensures { IfOk result (λ found. found ≡ text_of name.now (members object.entry)) }
{
    name_of(alloc, text_of(object, name))
}

/// Whether a member is there and true.
pub(crate) fn truth_of(object: Option<&Value>, name: &str) -> bool
    ensures { result ≡ truth_of name.now (members object.entry) }
{
    match member(object, name) {
        Some(value) => value.as_bool().unwrap_or(false),
        None => false,
    }
}

/// The whole number that a member has.
pub(crate) fn number_of(object: Option<&Value>, name: &str) -> Option<u64>
    ensures { result ≡ number_in (get name.now (members object.entry)) }
{
    member(object, name)?.as_u64()
}

/// The items of a member; none where it is no list.
#[tactic(auto, using(crate::proofs::Looking::looks))]
pub(crate) fn items_of<'a>(object: Option<&'a Value>, name: &str) -> &'a [Value]
    ensures { map view result.now ≡ items_in (get name.now (members object.entry)) }
{
    let Some(value) = member(object, name) else {
        return &[];
    };
    match value.as_array() {
        Some(items) => items.as_slice(),
        None => &[],
    }
}
