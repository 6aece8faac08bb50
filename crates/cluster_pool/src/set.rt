//! A set of clusters, one bit for each.

ghost use Rattle.std.specs.Prelude.{◌≡◌, ℕ, ◌+◌, ◌*◌, ◌^◌, ◌<◌, ◌≤◌, List, length, replicate, false, Bool, IfOk};
ghost use Rattle.std.specs.Int.{div_ceil};
ghost use Rattle.bitmap_model.specs.Granules.{is_in, set_of};
ghost use Rattle.cluster_pool.specs.Sets.{is_in_words, with_member, without_member};

use std::alloc::{AllocError, Global};
use std::marker::Model;

/// A set of the numbers below a length that was fixed when it was made.
#[derive(Debug, Drop)]
pub struct ClusterSet {
    words: Vec<u64>,
    count: u64,
}

impl Model for ClusterSet {
    ghost use Rattle.std.specs.Prelude.{◌≡◌, ◌≤◌, ◌*◌, ◌^◌, length, List, Bool};
    ghost use Rattle.bitmap_model.specs.Granules.{set_of};
    ghost use Rattle.cluster_pool.specs.Sets.{is_in_words};

    ghost Value = { List Bool };

    ghost view = { λ s. set_of s.count (is_in_words s.words.items) };

    ghost invariant = { λ s. s.count ≤ 64 * length s.words.items };
}

impl ClusterSet {
    /// The set of no number, for numbers below `count`. It takes a bit for each.
    pub fn new(alloc: Global, count: u64) -> Result<ClusterSet, AllocError>
        requires { count ≤ 2 ^ 48 }
        ensures { IfOk result (λ s. s ≡ replicate count false) }
    {
        Ok(ClusterSet {
            words: vec![in alloc; 0u64; count.div_ceil(64) as usize]?,
            count,
        })
    }

    /// The numbers below it may be in the set.
    pub fn limit(&self) -> u64
        ensures { result ≡ length self.now }
    {
        self.count
    }

    /// Whether the number is in the set.
    pub fn has(&self, number: u64) -> bool
        ensures { result ≡ is_in self.now number }
    {
        number < self.count && self.words[(number / 64) as usize] >> (number % 64) & 1 == 1
    }

    /// Puts a number into the set.
    pub fn insert(&mut self, number: u64)
        requires { number < length self.old }
        ensures { self.new ≡ with_member self.old number }
    {
        let word = (number / 64) as usize;
        self.words[word] = self.words[word] | 1 << (number % 64);
    }

    /// Takes a number out of the set.
    pub fn remove(&mut self, number: u64)
        requires { number < length self.old }
        ensures { self.new ≡ without_member self.old number }
    {
        let word = (number / 64) as usize;
        self.words[word] = self.words[word] & !(1 << (number % 64));
    }

    /// Takes every number out of it.
    pub fn clear(&mut self)
        ensures { self.new ≡ replicate (length self.old) false }
    {
        self.words.as_mut_slice().fill(0);
    }
}
