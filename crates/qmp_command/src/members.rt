//! Whether an object has the members that it may have, each in its form.

ghost use Rattle.std.specs.Prelude.{◌≡◌, ◌||◌, None, map, option_map, is_some, bytes_eq, MatchResult};
ghost use Rattle.std.specs.List.{list_all, list_any};
ghost use Rattle.serde_json.specs.Find.{as_str, as_object};
ghost use Rattle.serde_json.specs.View.{view};
ghost use Rattle.monitor_model.specs.Commands as model;
ghost use Rattle.qmp_command.specs.Views.{seen, members, plain_form, plain_table, Tells};

use crate::orders::QmpFault;
use crate::tables::{Form, Member};
use crate::values::{member, name_of};
use serde_json::Value;
use std::alloc::Global;

/// Whether each item is a text.
fn are_texts(items: &[Value]) -> bool
    ensures { result ≡ list_all (λ v. is_some (as_str (view v))) items.now }
{
    items.iter().all(|item| item.is_string())
}

/// Whether each item is an object.
fn are_objects(items: &[Value]) -> bool
    ensures { result ≡ list_all (λ v. is_some (as_object (view v))) items.now }
{
    items.iter().all(|item| item.is_object())
}

/// Whether each item is a text or an object.
fn are_sources(items: &[Value]) -> bool
    ensures { result ≡ list_all (λ v. is_some (as_str (view v)) || is_some (as_object (view v))) items.now }
{
    items
        .iter()
        .all(|item| item.is_string() || item.is_object())
}

/// Whether the value is a list of texts.
fn is_text_list(value: &Value) -> bool
    ensures { result ≡ model.is_list model.is_text (view value.now) }
{
    match value.as_array() {
        Some(items) => are_texts(items),
        None => false,
    }
}

/// Whether the value is a list of objects.
fn is_object_list(value: &Value) -> bool
    ensures { result ≡ model.is_list model.is_object (view value.now) }
{
    match value.as_array() {
        Some(items) => are_objects(items),
        None => false,
    }
}

/// Whether the value is a list of texts and of objects.
fn is_source_list(value: &Value) -> bool
    ensures { result ≡ model.is_list model.is_source (view value.now) }
{
    match value.as_array() {
        Some(items) => are_sources(items),
        None => false,
    }
}

/// Whether the value is a list with no items.
fn is_empty_list(value: &Value) -> bool
    ensures { result ≡ model.is_list model.is_none_of_any (view value.now) }
{
    match value.as_array() {
        Some(items) => items.is_empty(),
        None => false,
    }
}

/// Whether the text is one of the words.
fn is_among(words: &[&str], text: &str) -> bool
    ensures { result ≡ list_any (λ word. bytes_eq word.now text.now) words.now }
{
    words.iter().any(|word| *word == text)
}

/// Whether the value is one of the words.
fn is_one_of(words: &[&str], value: &Value) -> bool
    ensures { result ≡ model.is_one_of (map (λ w. w.now) words.now) (view value.now) }
{
    match value.as_str() {
        Some(text) => is_among(words, text),
        None => false,
    }
}

/// Whether the value has the form.
fn has_form(form: Form, value: &Value) -> bool
    ensures { result ≡ model.has_form (plain_form form) (view value.now) }
{
    match form {
        Form::Any => true,
        Form::Text => value.is_string(),
        Form::Number => value.is_u64(),
        Form::Truth => value.is_boolean(),
        Form::Word(words) => is_one_of(words, value),
        Form::Object => value.is_object(),
        Form::EmptyList => is_empty_list(value),
        Form::TextList => is_text_list(value),
        Form::SourceList => is_source_list(value),
        Form::ObjectList => is_object_list(value),
    }
}

/// Whether the value is there in another form.
pub(crate) fn is_wrong(form: Form, value: Option<&Value>) -> bool
    ensures { result ≡ model.is_wrong (plain_form form) (seen value.entry) }
{
    match value {
        Some(value) => !has_form(form, value),
        None => false,
    }
}

/// Whether the table has a member of this name.
fn is_in_table(table: &[Member], name: &str) -> bool
    ensures { result ≡ model.is_in_table (plain_table table.now) name.now }
{
    for member in table {
        if name == member.name {
            return true;
        }
    }
    false
}

/// The least member of the object that the table doesn't have.
pub(crate) fn unknown_in<'a>(table: &[Member], object: Option<&'a Value>) -> Option<&'a str>
    ensures { option_map (λ name. model.UnknownMember name.now) result ≡ model.unknown_in (plain_table table.now) (members object.entry) }
{
    let members = object?.as_object()?;
    for (name, _) in members.iter() {
        if !is_in_table(table, name.as_str()) {
            return Some(name.as_str());
        }
    }
    None
}

/// The least member that is needed and isn't there.
fn missing_in(table: &[Member], object: Option<&Value>) -> Option<&'static str>
    ensures { option_map (λ name. model.MissingMember name.now) result ≡ model.missing_in (plain_table table.now) (members object.entry) }
{
    for wanted in table {
        if wanted.needed && member(object, wanted.name).is_none() {
            return Some(wanted.name);
        }
    }
    None
}

/// The least member that is there in another form than its own.
fn wrong_in(table: &[Member], object: Option<&Value>) -> Option<&'static str>
    ensures { option_map (λ name. model.WrongType name.now) result ≡ model.wrong_in (plain_table table.now) (members object.entry) }
{
    for wanted in table {
        if is_wrong(wanted.form, member(object, wanted.name)) {
            return Some(wanted.name);
        }
    }
    None
}

/// Tests an object for members that the table doesn't have, then for those that are needed, then for their forms.
pub(crate) fn check(alloc: Global, table: &[Member], object: Option<&Value>) -> Result<(), QmpFault>
    ensures { MatchResult result (λ _. model.object_fault (plain_table table.now) (members object.entry) ≡ None) (Tells (model.object_fault (plain_table table.now) (members object.entry))) }
{
    if let Some(name) = unknown_in(table, object) {
        return Err(QmpFault::UnknownMember(name_of(alloc, name)?));
    }
    if let Some(name) = missing_in(table, object) {
        return Err(QmpFault::MissingMember(name_of(alloc, name)?));
    }
    if let Some(name) = wrong_in(table, object) {
        return Err(QmpFault::WrongType(name_of(alloc, name)?));
    }
    Ok(())
}
