//! A request, cut by the tables of the second level.

ghost use Rattle.std.specs.Prelude.{◌≡◌, ◌+◌, ◌^◌, ◌<◌, ◌≤◌};
ghost use Rattle.image_model.specs.Clusters.{Shape, size};
ghost use Rattle.map_rows.specs.Parts.{IsPart};

/// The part of a request that one table of the second level maps.
#[derive(Clone, Copy, Debug, PartialEq, Eq)]
pub struct Part {
    /// Which table it is.
    pub table: u64,
    /// Its entries: the first, and how many.
    pub slot: u64,
    pub count: u64,
    /// Where the part begins in the cluster of the first entry.
    pub from: u64,
    /// How many bytes it has.
    pub length: u64,
}

/// Bytes of a cluster.
#[tactic(auto, using(crate::proofs::Cutting::bits_least, crate::proofs::Cutting::bits_most))]
pub fn cluster_of(cluster_bits: u32) -> u64
    requires low { 9 ≤ cluster_bits }
    requires high { cluster_bits ≤ 21 }
    ensures bytes { result ≡ 2 ^ cluster_bits }
    ensures least { 512 ≤ result }
    ensures most { result ≤ 2 ^ 21 }
{
    1 << cluster_bits
}

impl Part {
    /// The first part of a request of some bytes.
    pub fn first_of(cluster_bits: u32, at: u64, length: u64) -> Part
        requires low { 9 ≤ cluster_bits }
        requires high { cluster_bits ≤ 21 }
        requires some { 0 < length }
        requires end { at + length ≤ 2 ^ 62 }
        ensures part { (s : Shape) → 2 ^ cluster_bits ≡ size s → IsPart s at length result }
    {
        let cluster = cluster_of(cluster_bits);
        let per = cluster / 8;
        let index = at / cluster;
        let slot = index % per;
        let from = at % cluster;
        let bytes = length.min((per - slot) * cluster - from);
        Part {
            table: index / per,
            slot,
            count: (from + bytes).div_ceil(cluster),
            from,
            length: bytes,
        }
    }
}
