//! Rows of bits with layers above them.
//!
//! A layer is a row of bits in words, and above it a row with one bit for each of its words, 1 where the word isn't 0; so on
//! up to one word. A search for the next 1 reads two words a layer at most.

ghost use Rattle.std.specs.Prelude.{◌≡◌, ◌≢◌, ℕ, ◌+◌, ◌*◌, ◌^◌, ◌<◌, ◌≤◌, List, [], ◌∷◌, Bool, false, length, map, replicate, set, slice_index, IfOk, IfSome, IsNone, ◌↔◌};
ghost use Rattle.bitmap_model.specs.Granules.{is_in, IsNext, HasNoNext};
ghost use Rattle.bits_granular.specs.Words.{has, bits_of, has_ones, IsRow, FitsWord, with_word, zeros_of};

use crate::words::first_from;
use std::alloc::{AllocError, Global};
use std::marker::Model;

/// A row of bits in which the next 1 is found.
pub(crate) trait Finder: Sized + Drop {
    ghost bits: { Self → List Bool };

    ghost most: { ℕ };

    /// A row of so many bits, each 0.
    fn zeros(alloc: Global, count: usize) -> Result<Self, AllocError>
        requires fits { count ≤ most }
        requires few { count ≤ 2 ^ 27 }
        ensures { IfOk result (λ row. bits row ≡ replicate count false) };

    /// The number of the first 1 from a number on.
    fn next(&self, from: usize) -> Option<usize>
        ensures found { IfSome result (IsNext (is_in (bits self.now)) from) }
        ensures none { IsNone result ↔ HasNoNext (is_in (bits self.now)) from };

    /// Puts a bit in its place.
    fn put(&mut self, at: usize, value: bool)
        requires { at < length (bits self.old) }
        ensures { bits self.new ≡ set (bits self.old) at value };

    /// The same row once more.
    fn copy(&self, alloc: Global) -> Result<Self, AllocError>
        ensures { IfOk result (λ row. bits row ≡ bits self.now) };
}

/// The word with one bit put in its place.
fn with_bit(word: u64, place: u32, value: bool) -> u64
    requires { place < 64 }
    ensures same { has result place ≡ value }
    ensures others { (i : ℕ) → i < 64 → i ≢ place → has result i ≡ has word i }
{
    if value {
        word | 1 << place
    } else {
        word & !(1 << place)
    }
}

/// A row of one word.
#[derive(Debug, Drop)]
pub(crate) struct Top {
    count: usize,
    word: u64,
    ghost few: { count ≤ 64 },
    ghost fits: { FitsWord count 0 word },
}

impl Finder for Top {
    ghost bits = { λ t. bits_of (record { count = t.count; words = t.word ∷ [] }) };

    ghost most = { 64 };

    fn zeros(_alloc: Global, count: usize) -> Result<Top, AllocError> {
        Ok(Top { count, word: 0 })
    }

    fn next(&self, from: usize) -> Option<usize> {
        if from >= self.count {
            return None;
        }
        let bit = first_from(self.word, from as u32)?;
        Some(bit as usize)
    }

    fn put(&mut self, at: usize, value: bool) {
        self.word = with_bit(self.word, at as u32, value);
    }

    fn copy(&self, _alloc: Global) -> Result<Top, AllocError> {
        Ok(Top {
            count: self.count,
            word: self.word,
        })
    }
}

/// A row of bits in words, and above it one bit for each word that isn't 0.
#[derive(Debug, Drop)]
pub(crate) struct Layer<A: Finder> {
    count: usize,
    words: Vec<u64>,
    above: A,
}

impl<A: Finder> Model for Layer<A> {
    ghost use Rattle.bits_granular.specs.Words.{BitRow, IsLayer};

    ghost Value = { BitRow };

    ghost view = { λ l. record { count = l.count; words = l.words.items } };

    ghost invariant = { λ l. IsLayer (record { count = l.count; words = l.words.items }) (A.bits l.above) };
}

impl<A: Finder> Layer<A> {
    /// How many bits there are.
    pub(crate) fn count(&self) -> usize
        ensures count { result ≡ self.now.count }
        ensures row { IsRow self.now }
    {
        self.count
    }

    /// How many words they take.
    pub(crate) fn length(&self) -> usize
        ensures { result ≡ length self.now.words }
    {
        self.words.len()
    }

    /// A word.
    pub(crate) fn word(&self, number: usize) -> u64
        requires { number < length self.now.words }
        ensures { result ≡ slice_index self.now.words number }
    {
        self.words[number]
    }

    /// The number of the first word from a number on that isn't 0.
    pub(crate) fn next_word(&self, from: usize) -> Option<usize>
        ensures found { IfSome result (IsNext (is_in (map has_ones self.now.words)) from) }
        ensures none { IsNone result ↔ HasNoNext (is_in (map has_ones self.now.words)) from }
    {
        self.above.next(from)
    }

    /// Puts a word in its place.
    pub(crate) fn put_word(&mut self, number: usize, word: u64)
        requires inside { number < length self.old.words }
        requires fits { FitsWord self.old.count number word }
        ensures { self.new ≡ with_word self.old number word }
    {
        if (word == 0) != (self.words[number] == 0) {
            self.above.put(number, word != 0);
        }
        self.words[number] = word;
    }
}

impl<A: Finder> Finder for Layer<A> {
    ghost bits = { bits_of };

    ghost most = { A.most * 64 };

    fn zeros(alloc: Global, count: usize) -> Result<Layer<A>, AllocError>
        requires fits { count ≤ A.most * 64 }
        requires few { count ≤ 2 ^ 27 }
        ensures words { IfOk result (λ row. row ≡ zeros_of count) }
        ensures bits { IfOk result (λ row. bits_of row ≡ replicate count false) }
    {
        let length = count.div_ceil(64);
        let above = A::zeros(alloc, length)?;
        let words = vec![in alloc; 0u64; length]?;
        Ok(Layer {
            count,
            words,
            above,
        })
    }

    fn next(&self, from: usize) -> Option<usize> {
        let number = from / 64;
        if number >= self.words.len() {
            return None;
        }
        if let Some(bit) = first_from(self.words[number], (from % 64) as u32) {
            return Some(number * 64 + bit as usize);
        }
        let number = self.above.next(number + 1)?;
        Some(number * 64 + self.words[number].trailing_zeros() as usize)
    }

    fn put(&mut self, at: usize, value: bool) {
        let word = with_bit(self.words[at / 64], (at % 64) as u32, value);
        self.put_word(at / 64, word);
    }

    fn copy(&self, alloc: Global) -> Result<Layer<A>, AllocError>
        ensures words { IfOk result (λ row. row ≡ self.now) }
    {
        Ok(Layer {
            count: self.count,
            words: self.words.as_slice().to_vec(alloc)?,
            above: self.above.copy(alloc)?,
        })
    }
}
