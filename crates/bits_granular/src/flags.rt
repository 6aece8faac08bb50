//! A flag for each granule, in layers.

ghost use Rattle.std.specs.Prelude.{◌≡◌, ◌≢◌, ℕ, ◌+◌, ◌*◌, ◌^◌, ◌<◌, ◌≤◌, false, length, replicate, IfOk, IfSome, IsNone, IfNone, ◌↔◌};
ghost use Rattle.bitmap_model.specs.Granules.{is_in, is_clean, count_of, IsNext, HasNoNext, IsFilled};
ghost use Rattle.bits_granular.specs.Words.{clean_at, FitsWord, HasWord, IsWordOf, IsUnion, words_for, IsNextWord, HasNoNextWord};

use crate::layers::{Finder, Layer, Top};
use crate::words::{all_of, first_from, part_of};
use std::alloc::{AllocError, Global};
use std::marker::Model;

// A row of up to 2^24 bits.
type Index = Layer<Layer<Layer<Top>>>;

/// A flag for each granule, 64 in a word. Above the words stands one bit for each that isn't 0, and one for each that isn't
/// full, both in layers up to one word. The last word is full when each granule that there is in it is set. The count of
/// flags that are set is kept.
#[derive(Debug, Drop)]
pub(crate) struct Flags {
    dirty: Layer<Index>,
    gaps: Index,
    ones: u64,
}

impl Model for Flags {
    ghost use Rattle.std.specs.Prelude.{List, Bool};
    ghost use Rattle.bits_granular.specs.Words.{bits_of, IsCounted};

    ghost Value = { List Bool };

    ghost view = { λ f. bits_of f.dirty };

    ghost invariant = { λ f. IsCounted f.dirty (bits_of f.gaps) f.ones };
}

/// A word with 1 for each bit of a row that there is and is 0.
fn clean_word(row: &Layer<Index>, number: usize) -> u64
    requires { number < length row.now.words }
    ensures { result ≡ clean_at row.now number }
{
    all_of(row.count(), number) & !row.word(number)
}

impl Flags {
    /// So many flags, none of them set.
    pub(crate) fn none(alloc: Global, count: usize) -> Result<Flags, AllocError>
        requires { count ≤ 2 ^ 27 }
        ensures none { IfOk result (λ flags. flags ≡ replicate count false) }
        ensures count { IfOk result (λ flags. length flags ≡ count) }
    {
        let dirty: Layer<Index> = Finder::zeros(alloc, count)?;
        let mut gaps: Index = Finder::zeros(alloc, count.div_ceil(64))?;
        for number in 0..count.div_ceil(64) {
            gaps.put(number, true);
        }
        Ok(Flags {
            dirty,
            gaps,
            ones: 0,
        })
    }

    /// How many flags there are.
    pub(crate) fn len(&self) -> usize
        ensures value { result ≡ length self.now }
        ensures few { length self.now ≤ 2 ^ 27 }
    {
        self.dirty.count()
    }

    /// How many flags are set.
    pub(crate) fn count(&self) -> u64
        ensures { result ≡ count_of self.now }
    {
        self.ones
    }

    /// Whether a flag is set.
    pub(crate) fn get(&self, at: usize) -> bool
        requires { at < length self.now }
        ensures { result ≡ is_in self.now at }
    {
        (self.dirty.word(at / 64) >> (at % 64)) & 1 == 1
    }

    /// A word of flags.
    pub(crate) fn word(&self, number: usize) -> u64
        requires { number < words_for (length self.now) }
        ensures { IsWordOf self.now number result }
    {
        self.dirty.word(number)
    }

    /// Puts a word of flags in its place.
    pub(crate) fn put_word(&mut self, number: usize, word: u64)
        requires inside { number < words_for (length self.old) }
        requires fits { FitsWord (length self.old) number word }
        ensures { HasWord self.old self.new number word }
    {
        let count = self.dirty.count();
        let old = self.dirty.word(number);
        self.ones = self.ones - old.count_ones() as u64 + word.count_ones() as u64;
        self.gaps.put(number, word != all_of(count, number));
        self.dirty.put_word(number, word);
    }

    /// The number of the first word from a number on in which a flag is set.
    fn next_word(&self, from: usize) -> Option<usize>
        ensures found { IfSome result (IsNextWord self.now from) }
        ensures none { IfNone result (HasNoNextWord self.now from) }
        ensures few { length self.now ≤ 2 ^ 27 }
    {
        self.dirty.next_word(from)
    }

    /// The place of the first flag from a place on that is set.
    pub(crate) fn next_set(&self, from: usize) -> Option<usize>
        ensures found { IfSome result (IsNext (is_in self.now) from) }
        ensures none { IsNone result ↔ HasNoNext (is_in self.now) from }
    {
        self.dirty.next(from)
    }

    /// The place of the first flag from a place on that isn't set.
    pub(crate) fn next_unset(&self, from: usize) -> Option<usize>
        ensures found { IfSome result (IsNext (is_clean self.now) from) }
        ensures none { IsNone result ↔ HasNoNext (is_clean self.now) from }
    {
        let number = from / 64;
        if number >= self.dirty.length() {
            return None;
        }
        if let Some(bit) = first_from(clean_word(&self.dirty, number), (from % 64) as u32) {
            return Some(number * 64 + bit as usize);
        }
        let number = self.gaps.next(number + 1)?;
        Some(number * 64 + clean_word(&self.dirty, number).trailing_zeros() as usize)
    }

    /// Sets the flags from place `first` to before place `past`.
    pub(crate) fn fill(&mut self, first: usize, past: usize)
        requires order { first ≤ past }
        requires inside { past ≤ length self.old }
        ensures { IsFilled self.old self.new first past }
    {
        for number in first / 64..past.div_ceil(64) {
            let word = self.word(number) | part_of(first, past, number);
            self.put_word(number, word);
        }
    }

    /// Sets each flag that is set in the other.
    pub(crate) fn join(&mut self, other: &Flags)
        requires { length other.now ≡ length self.old }
        ensures { IsUnion self.old other.now self.new }
    {
        let mut from = 0;
        while let Some(number) = other.next_word(from) {
            let word = self.word(number) | other.word(number);
            self.put_word(number, word);
            from = number + 1;
        }
    }

    /// Takes each flag back.
    pub(crate) fn clear(&mut self)
        ensures { self.new ≡ replicate (length self.old) false }
    {
        let mut from = 0;
        while let Some(number) = self.next_word(from) {
            self.put_word(number, 0);
            from = number + 1;
        }
    }

    /// The same flags once more.
    pub(crate) fn copy(&self, alloc: Global) -> Result<Flags, AllocError>
        ensures { IfOk result (λ flags. flags ≡ self.now) }
    {
        Ok(Flags {
            dirty: self.dirty.copy(alloc)?,
            gaps: self.gaps.copy(alloc)?,
            ones: self.ones,
        })
    }
}
