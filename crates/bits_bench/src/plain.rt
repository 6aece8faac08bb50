//! The same work by plain loops over words of 64 granules.

/// Sets so many granules of one word from a granule on.
pub(crate) fn mark(words: &mut [u64], granule: u64, count: u32) {
    let word = (granule / 64) as usize;
    if word < words.len() && count < 64 {
        words[word] |= ((1u64 << count) - 1) << (granule % 64);
    }
}

// The first granule from a place in the first word on that is set.
fn first_from(words: &[u64], place: u32) -> Option<u64> {
    for (number, word) in words.iter().enumerate() {
        let rest = if number == 0 && place < 64 {
            *word >> place << place
        } else {
            *word
        };
        if rest != 0 {
            return Some(
                (number as u64)
                    .saturating_mul(64)
                    .saturating_add(u64::from(rest.trailing_zeros())),
            );
        }
    }
    None
}

/// The first granule that is set, so many times.
pub(crate) fn next_dirty(words: &[u64], calls: u32) -> u64 {
    let mut answer = 0;
    for call in 0..calls {
        if let Some(granule) = first_from(words, call % 64) {
            answer = granule;
        }
    }
    answer
}

// How many runs of equal granules a word begins, after a granule of this flag.
fn runs_in(word: u64, before: u64) -> u32 {
    (word ^ (word << 1 | before)).count_ones()
}

/// How many runs of equal granules the words have, so many times.
pub(crate) fn runs(words: &[u64], calls: u32) -> u64 {
    let mut answer = 0;
    for call in 0..calls {
        let mut before = u64::from(call % 2);
        let mut count = 0u64;
        for word in words {
            count = count.saturating_add(u64::from(runs_in(*word, before)));
            before = *word >> 63;
        }
        answer = count;
    }
    answer
}

/// So many marks of eight granules at places all over 2^27 granules.
pub(crate) fn marks(words: &mut [u64], calls: u32) {
    for call in 0..calls {
        let block = u64::from(call) * 7919 % (1 << 24);
        mark(words, block * 8, 8);
    }
}

/// How many granules are set.
pub(crate) fn count(words: &[u64]) -> u64 {
    let mut count = 0u64;
    for word in words {
        count = count.saturating_add(u64::from(word.count_ones()));
    }
    count
}
