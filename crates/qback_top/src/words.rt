//! The words of the program.
//!
//! The form of the words is read first, which takes no memory. Then the names are copied.

ghost use Rattle.std.specs.Prelude.{◌≡◌, ◌↔◌, ◌∷◌, [], Err, List, ℕ, map, codes, option_map, string_bytes, IfOk, IsTrue, MatchOption, MatchResult};
ghost use Rattle.qback_top.specs.Words.{IsTask, AreTexts, HaveNoForm, IsName, IsId, IsBacking, SayForm, backing_words};
ghost use Rattle.qback_top.specs.Forms.{said};
ghost use Rattle.qback_top.specs.declared.words.WordsRefusal.TheVariants.{NoForm, Memory};

use backup_file::valid_form;
use hex::FromHex;
use script_codec::number;
use span_algebra::Name;
use std::alloc::Global;

/// What the words of the program say. Sizes are in bytes.
#[derive(Debug, Drop)]
pub enum Task {
    /// Makes an empty disk.
    CreateSource {
        file: Name,
        size: u64,
        cluster_bits: u32,
        disk: [u8; 16],
    },
    /// Makes an empty backup.
    CreateTarget {
        file: Name,
        size: u64,
        cluster_bits: u32,
        backing: Option<Name>,
    },
    /// Says what a file is.
    Info {
        file: Name,
    },
    /// Carries out a script.
    Replay {
        file: Name,
        script: Name,
    },
}

/// Why the words say no task.
#[derive(Clone, Copy, Debug, PartialEq, Eq)]
pub enum WordsRefusal {
    /// They have no form.
    NoForm,
    /// There was no memory.
    Memory,
}

/// A task whose names stand in the words.
#[derive(Clone, Copy)]
enum Form<'a> {
    CreateSource {
        file: &'a str,
        size: u64,
        cluster_bits: u32,
        disk: [u8; 16],
    },
    CreateTarget {
        file: &'a str,
        size: u64,
        cluster_bits: u32,
        backing: Option<&'a str>,
    },
    Info {
        file: &'a str,
    },
    Replay {
        file: &'a str,
        script: &'a str,
    },
}

/// Whether a file may have this name.
fn is_name(word: &str) -> bool
    ensures { IsTrue result ↔ IsName word.now }
{
    !word.is_empty() && word.len() <= 4096
}

/// Whether a backup may name this file under it.
fn is_backing(name: Option<&str>) -> bool
    ensures { IsTrue result ↔ IsBacking (option_map (λ name. name.now) name.entry) }
{
    match name {
        None => true,
        Some(name) => !name.is_empty() && name.len() <= 255,
    }
}

/// The id that a word spells.
fn id_of(word: &str) -> Option<[u8; 16]>
    ensures { MatchOption result ((id : List ℕ) → IsId word.now id → ⊥) (λ id. IsId word.now id) }
{
    <[u8; 16] as FromHex>::from_hex(word).ok()
}

/// The size and the cluster bits that two words spell, where an image may have them.
fn form_of(size: &str, bits: &str) -> Option<(u64, u32)>
    ensures { MatchOption result ((n b : ℕ) → SayForm size.now bits.now n b → ⊥) (λ form. SayForm size.now bits.now form.0 form.1) }
{
    let size = number(size.as_bytes())?;
    let bits = number(bits.as_bytes())?;
    let Ok(cluster_bits) = u32::try_from(bits) else {
        return None;
    };
    if valid_form(size, cluster_bits) {
        Some((size, cluster_bits))
    } else {
        None
    }
}

/// What two words say, as `info` and a file.
fn info_form<'a>(verb: &str, file: &'a str) -> Option<Form<'a>>
    ensures { MatchOption result (HaveNoForm (verb.now ∷ file.now ∷ [])) (λ form. IsTask (verb.now ∷ file.now ∷ []) (said form)) }
{
    if verb == "info" && is_name(file) {
        Some(Form::Info { file })
    } else {
        None
    }
}

/// What three words say, as `replay`, a file and a script.
fn replay_form<'a>(verb: &str, file: &'a str, script: &'a str) -> Option<Form<'a>>
    ensures { MatchOption result (HaveNoForm (verb.now ∷ file.now ∷ script.now ∷ [])) (λ form. IsTask (verb.now ∷ file.now ∷ script.now ∷ []) (said form)) }
{
    if verb == "replay" && is_name(file) && is_name(script) {
        Some(Form::Replay { file, script })
    } else {
        None
    }
}

/// What the words of a disk to be made say, but for the first.
fn source_form<'a>(file: &'a str, size: &str, bits: &str, id: &str) -> Option<Form<'a>>
    ensures { MatchOption result (HaveNoForm (codes "create-source" ∷ file.now ∷ size.now ∷ bits.now ∷ id.now ∷ []))
        (λ form. IsTask (codes "create-source" ∷ file.now ∷ size.now ∷ bits.now ∷ id.now ∷ []) (said form)) }
{
    if !is_name(file) {
        return None;
    }
    let (size, cluster_bits) = form_of(size, bits)?;
    let disk = id_of(id)?;
    Some(Form::CreateSource {
        file,
        size,
        cluster_bits,
        disk,
    })
}

/// What the words of a backup to be made say, but for the first.
fn target_form<'a>(
    file: &'a str,
    size: &str,
    bits: &str,
    backing: Option<&'a str>,
) -> Option<Form<'a>>
    ensures { MatchOption result (HaveNoForm (codes "create-target" ∷ file.now ∷ size.now ∷ bits.now ∷ backing_words (option_map (λ name. name.now) backing.entry)))
        (λ form. IsTask (codes "create-target" ∷ file.now ∷ size.now ∷ bits.now ∷ backing_words (option_map (λ name. name.now) backing.entry)) (said form)) }
{
    if !is_name(file) || !is_backing(backing) {
        return None;
    }
    let (size, cluster_bits) = form_of(size, bits)?;
    Some(Form::CreateTarget {
        file,
        size,
        cluster_bits,
        backing,
    })
}

/// What four words say.
fn four_form<'a>(verb: &str, file: &'a str, size: &str, bits: &str) -> Option<Form<'a>>
    ensures { MatchOption result (HaveNoForm (verb.now ∷ file.now ∷ size.now ∷ bits.now ∷ []))
        (λ form. IsTask (verb.now ∷ file.now ∷ size.now ∷ bits.now ∷ []) (said form)) }
{
    if verb == "create-target" {
        target_form(file, size, bits, None)
    } else {
        None
    }
}

/// What five words say.
fn five_form<'a>(
    verb: &str,
    file: &'a str,
    size: &str,
    bits: &str,
    last: &'a str,
) -> Option<Form<'a>>
    ensures { MatchOption result (HaveNoForm (verb.now ∷ file.now ∷ size.now ∷ bits.now ∷ last.now ∷ []))
        (λ form. IsTask (verb.now ∷ file.now ∷ size.now ∷ bits.now ∷ last.now ∷ []) (said form)) }
{
    if verb == "create-source" {
        source_form(file, size, bits, last)
    } else if verb == "create-target" {
        target_form(file, size, bits, Some(last))
    } else {
        None
    }
}

/// What the words say.
fn form_in(words: &[String]) -> Option<Form<'_>>
    ensures { MatchOption result (HaveNoForm (map string_bytes words.now)) (λ form. IsTask (map string_bytes words.now) (said form)) }
{
    match words {
        [verb, file] => info_form(verb.as_str(), file.as_str()),
        [verb, file, script] => replay_form(verb.as_str(), file.as_str(), script.as_str()),
        [verb, file, size, bits] => four_form(
            verb.as_str(),
            file.as_str(),
            size.as_str(),
            bits.as_str(),
        ),
        [verb, file, size, bits, last] => five_form(
            verb.as_str(),
            file.as_str(),
            size.as_str(),
            bits.as_str(),
            last.as_str(),
        ),
        _ => None,
    }
}

/// A copy of the name.
fn name_of(alloc: Global, name: &str) -> Result<Name, WordsRefusal>
    ensures { MatchResult result (λ copy. copy ≡ name.now) (λ e. e ≡ Memory) }
{
    match Vec::from_slice(alloc, name.as_bytes()) {
        Ok(items) => Ok(Name { items }),
        Err(_) => Err(WordsRefusal::Memory),
    }
}

/// The task with copies of the names.
fn copied(alloc: Global, form: Form) -> Result<Task, WordsRefusal>
    ensures copied { MatchResult result (λ task. task ≡ said form.entry) (λ e. e ≡ Memory) }
    ensures texts { IfOk result AreTexts }
{
    match form {
        Form::CreateSource {
            file,
            size,
            cluster_bits,
            disk,
        } => Ok(Task::CreateSource {
            file: name_of(alloc, file)?,
            size,
            cluster_bits,
            disk,
        }),
        Form::CreateTarget {
            file,
            size,
            cluster_bits,
            backing,
        } => {
            let backing = match backing {
                None => None,
                Some(name) => Some(name_of(alloc, name)?),
            };
            Ok(Task::CreateTarget {
                file: name_of(alloc, file)?,
                size,
                cluster_bits,
                backing,
            })
        }
        Form::Info { file } => Ok(Task::Info {
            file: name_of(alloc, file)?,
        }),
        Form::Replay { file, script } => Ok(Task::Replay {
            file: name_of(alloc, file)?,
            script: name_of(alloc, script)?,
        }),
    }
}

/// The task that the words say, which are those after the program's name.
pub fn read_words(alloc: Global, words: &[String]) -> Result<Task, WordsRefusal>
    ensures task { IfOk result (λ task. IsTask (map string_bytes words.now) task) }
    ensures no_form { (result ≡ Err NoForm) ↔ HaveNoForm (map string_bytes words.now) }
    ensures texts { IfOk result AreTexts }
{
    match form_in(words) {
        None => Err(WordsRefusal::NoForm),
        Some(form) => copied(alloc, form),
    }
}
