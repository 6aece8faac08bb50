//! Entries of a table of the second level, by their bytes.

ghost use Rattle.std.specs.Prelude.{◌≡◌, ◌+◌, ◌*◌, ◌^◌, ◌<◌, ◌≤◌, length, count_by};
ghost use Rattle.std.specs.List.{range_with_len};
ghost use Rattle.disk_model.specs.Files.{u64_at};
ghost use Rattle.image_model.specs.Clusters.{offset, stored};
ghost use Rattle.image_model.specs.Space.{allocation_flags};
ghost use Rattle.map_rows.specs.Stores.{kind_of, is_open_at};

// A word among others, the highest byte first.
fn word_at(entries: &[u8], index: usize) -> u64
    requires { 8 * index + 8 ≤ length entries.now }
    ensures { result ≡ u64_at entries.now (8 * index) }
{
    let at = 8 * index;
    u64::from_be_bytes(entries[at..at + 8].try_into().unwrap())
}

/// The offset in an entry: its bits 9 to 55.
#[tactic(auto, unfolding(image_model::specs::Clusters::offset))]
pub fn offset_at(entries: &[u8], index: usize) -> u64
    requires { 8 * index + 8 ≤ length entries.now }
    ensures offset { result ≡ offset (u64_at entries.now (8 * index)) }
    ensures near { result < 2 ^ 56 }
{
    word_at(entries, index) / 512 % (1 << 47) * 512
}

/// Where an entry's cluster is stored; 0 where it isn't, or reads as zeros all the same.
#[tactic(auto, unfolding(image_model::specs::Clusters::stored, image_model::specs::Clusters::offset))]
pub fn stored_at(entries: &[u8], index: usize) -> u64
    requires { 8 * index + 8 ≤ length entries.now }
    ensures stored { result ≡ stored (u64_at entries.now (8 * index)) }
    ensures near { result < 2 ^ 56 }
{
    if word_at(entries, index) % 2 == 0 {
        offset_at(entries, index)
    } else {
        0
    }
}

/// How many of the first entries have no bytes stored.
#[tactic(auto, using(crate::proofs::Counting::counted_more), unfolding(image_model::specs::Clusters::stored))]
pub fn count_open(entries: &[u8], count: usize) -> u64
    requires { 8 * count ≤ length entries.now }
    ensures open { result ≡ count_by (is_open_at entries.now) (range_with_len 0 count) }
    ensures most { result ≤ count }
{
    let mut found = 0;
    for index in 0..count {
        if stored_at(entries, index) == 0 {
            found += 1;
        }
    }
    found
}

/// What NBD tells of an entry's cluster: 3 for a hole, 2 for zeros that a cluster is kept for, 0 for data.
pub fn flags_at(entries: &[u8], index: usize) -> u32
    requires { 8 * index + 8 ≤ length entries.now }
    ensures flags { result ≡ allocation_flags (kind_of (u64_at entries.now (8 * index))) }
{
    if offset_at(entries, index) == 0 {
        3
    } else if word_at(entries, index) % 2 == 0 {
        0
    } else {
        2
    }
}
