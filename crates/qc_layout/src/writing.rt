//! Writes a header.

ghost use Rattle.std.specs.Prelude.{◌≡◌, ◌≤◌, ◌<◌, ◌^◌, ℕ, List, length, min};
ghost use Rattle.disk_model.specs.Files.{reading};
ghost use Rattle.qc_layout.specs.Spelling.{Spells, Fits, IsSmall, sector_of, Puts, word_bytes, words_bytes, number_words, head_words, IsSmallWord, AreSmallWords, tail_bytes, own_bytes, bitmaps_bytes, tail_length, IsSmallOwn, AreSmallBitmaps, IsWritable};
ghost use Rattle.qc_layout.specs.declared.header.Part.{Part};

use crate::extension::{BITMAPS_KIND, OWN_KIND};
use crate::header::{DirPlace, Fields, Header, Own};

/// A number, in four bytes or in eight.
#[derive(Clone, Copy)]
enum Word {
    Four(u32),
    Eight(u64),
}

/// Puts bytes into a sector, where they have room, and answers the place behind them.
fn put(out: &mut [u8; 512], at: usize, bytes: &[u8]) -> usize
    ensures { Puts bytes.now out.old at out.new result }
{
    if at > 512 || bytes.len() > 512 - at {
        return at;
    }
    let end = at + bytes.len();
    out[at..end].copy_from_slice(bytes);
    end
}

/// Puts one number.
fn put_word(out: &mut [u8; 512], at: usize, word: Word) -> usize
    ensures puts { Puts (word_bytes word) out.old at out.new result }
    ensures small { IsSmallWord word }
{
    match word {
        Word::Four(number) => put(out, at, &number.to_be_bytes()),
        Word::Eight(number) => put(out, at, &number.to_be_bytes()),
    }
}

/// Puts numbers, one behind the other.
fn put_words(out: &mut [u8; 512], at: usize, words: &[Word]) -> usize
    ensures puts { Puts (words_bytes words.now) out.old at out.new result }
    ensures small { AreSmallWords words.now }
{
    let mut end = at;
    for word in words {
        end = put_word(out, end, *word);
    }
    end
}

/// Puts the numbers of a header.
fn put_numbers(out: &mut [u8; 512], fields: &Fields) -> usize
    ensures puts { Puts (words_bytes (number_words fields.now)) out.old 0 out.new result }
    ensures small { AreSmallWords (number_words fields.now) }
{
    let words = [
        Word::Four(fields.magic),
        Word::Four(fields.version),
        Word::Eight(fields.backing_file_offset),
        Word::Four(fields.backing_file_size),
        Word::Four(fields.cluster_bits),
        Word::Eight(fields.size),
        Word::Four(fields.crypt_method),
        Word::Four(fields.l1_size),
        Word::Eight(fields.l1_table_offset),
        Word::Eight(fields.refcount_table_offset),
        Word::Four(fields.refcount_table_clusters),
        Word::Four(fields.nb_snapshots),
        Word::Eight(fields.snapshots_offset),
        Word::Eight(fields.incompatible_features),
        Word::Eight(fields.compatible_features),
        Word::Eight(fields.autoclear_features),
        Word::Four(fields.refcount_order),
        Word::Four(fields.header_length),
    ];
    put_words(out, 0, &words)
}

/// How many of the kept bytes are the header's own.
fn tail_end(header: &Header) -> usize
    ensures { result ≡ min (tail_length header.now) (length header.now.kept.items.items) }
{
    let past = header.fields.header_length.saturating_sub(112) as usize;
    past.min(header.kept.items.len())
}

/// Puts the rest of a header that is longer than 104 bytes.
fn put_tail(out: &mut [u8; 512], at: usize, header: &Header) -> usize
    ensures { Puts (tail_bytes header.now) out.old at out.new result }
{
    if header.fields.header_length <= 104 {
        return at;
    }
    let tail = put(
        out,
        at,
        &[header.fields.compression_type, 0, 0, 0, 0, 0, 0, 0],
    );
    put(out, tail, &header.kept.items[..tail_end(header)])
}

/// Puts the kind of an extension and the length of its content.
fn put_head(out: &mut [u8; 512], at: usize, kind: u32, length: u32) -> usize
    ensures { Puts (words_bytes (head_words kind length)) out.old at out.new result }
{
    put_words(out, at, &[Word::Four(kind), Word::Four(length)])
}

/// Puts this project's extension.
#[tactic(auto, using(crate::proofs::Puts::puts_on), unfolding(crate::specs::Spelling::own_bytes))]
fn put_own(out: &mut [u8; 512], at: usize, own: &Own) -> usize
    ensures puts { Puts (own_bytes own.now) out.old at out.new result }
    ensures small { IsSmallOwn own.now }
{
    match own {
        Own::Absent => at,
        Own::Source {
            disk,
            epoch,
            spans_offset,
            spans_length,
        } => {
            let content = put_head(out, at, OWN_KIND, 40);
            let numbers = put(out, content, disk);
            let words = [
                Word::Eight(*epoch),
                Word::Eight(*spans_offset),
                Word::Eight(*spans_length),
            ];
            put_words(out, numbers, &words)
        }
        Own::Target(record) => {
            let content = put_head(out, at, OWN_KIND, 64);
            put(out, content, record)
        }
    }
}

/// Puts the extension of bitmaps.
#[tactic(auto, using(crate::proofs::Puts::puts_on), unfolding(crate::specs::Spelling::bitmaps_bytes))]
fn put_bitmaps(out: &mut [u8; 512], at: usize, bitmaps: &Option<DirPlace>) -> usize
    ensures puts { Puts (bitmaps_bytes bitmaps.now) out.old at out.new result }
    ensures small { AreSmallBitmaps bitmaps.now }
{
    match bitmaps {
        None => at,
        Some(place) => {
            let content = put_head(out, at, BITMAPS_KIND, 24);
            let words = [
                Word::Four(place.count),
                Word::Four(0),
                Word::Eight(place.size),
                Word::Eight(place.offset),
            ];
            put_words(out, content, &words)
        }
    }
}

/// Writes a header as one sector. What doesn't fit is left out.
pub fn write_header(header: &Header, out: &mut [u8; 512])
    ensures sector { Fits header.now → out.new ≡ sector_of header.now }
    ensures small { IsSmall header.now }
    // A header that is read from some file is read from each file that begins with the sector.
    ensures reads_back { (part : Part) (file written : List ℕ) → Spells part file header.now → Fits header.now →
        512 ≤ length written → reading written 0 512 ≡ out.new → Spells part written header.now }
    // So is one that no file spells yet, where it can be written.
    ensures writes { (part : Part) (written : List ℕ) → IsWritable part header.now → Fits header.now →
        512 ≤ length written → reading written 0 512 ≡ out.new → Spells part written header.now }
{
    *out = [0; 512];
    let numbers = put_numbers(out, &header.fields);
    let tail = put_tail(out, numbers, header);
    let own = put_own(out, tail, &header.own);
    let bitmaps = put_bitmaps(out, own, &header.bitmaps);
    put(out, bitmaps, &header.kept.items[tail_end(header)..]);
}
