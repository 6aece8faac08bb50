//! One word of 64 bits.

ghost use Rattle.std.specs.Prelude.{◌≡◌, ℕ, ◌+◌, ◌*◌, ◌<◌, ◌≤◌, ◌&&◌, false, nat_lt, nat_le, IfSome, IsNone, ◌↔◌, OnSome};
ghost use Rattle.bitmap_model.specs.Granules.{IsNext, HasNoNext};
ghost use Rattle.bits_granular.specs.Words.{has, ones_below, full_word};

/// The place of the first 1 of a word from a place on.
pub(crate) fn first_from(word: u64, from: u32) -> Option<u32>
    requires { from < 64 }
    ensures found { IfSome result (IsNext (has word) from) }
    ensures within { IfSome result (λ i. i < 64) }
    ensures none { IsNone result ↔ HasNoNext (has word) from }
{
    let rest = word >> from;
    if rest == 0 {
        None
    } else {
        Some(from + rest.trailing_zeros())
    }
}

/// The word with 1 in its first `count` bits.
pub(crate) fn below(count: usize) -> u64
    requires { count ≤ 64 }
    ensures { result ≡ ones_below count }
{
    if count == 64 {
        u64::MAX
    } else {
        (1 << count) - 1
    }
}

/// Word number `word` of so many bits, where all of them are 1.
pub(crate) fn all_of(count: usize, word: usize) -> u64
    requires { word * 64 ≤ count }
    ensures { result ≡ full_word count word }
{
    below((count - word * 64).min(64))
}

/// Word number `word`, with 1 from place `first` of all words to before place `past`.
pub(crate) fn part_of(first: usize, past: usize, word: usize) -> u64
    requires { word * 64 ≤ past }
    ensures inside { (i : ℕ) → i < 64 → has result i ≡ (nat_le first (word * 64 + i) && nat_lt (word * 64 + i) past) }
    ensures small { (i : ℕ) → 64 ≤ i → has result i ≡ false }
{
    let start = word * 64;
    let ends = below((past - start).min(64));
    let begins = below(first.saturating_sub(start).min(64));
    ends & !begins
}
