//! Images whose two levels of tables are refused, each for its reason; and how many calls an opening reads them by.

ghost use Rattle.std.specs.Prelude.{◌<◌};
ghost use Rattle.disk_model.specs.World.{World};

use crate::counting::Counting;
use crate::images::{found, header_of, made, open, opened};
use disk_memory::MemoryHost;
use disk_model::{Depot, FileNo};
use map_opening::{MapRefusal, claim_tables};
use std::alloc::Global;
use std::test::Fail;

// Opens the clusters of the image, and goes through its tables.
fn claimed<D: Depot>(
    alloc: Global,
    depot: &mut D,
    file: FileNo,
) -> Result<Result<(), MapRefusal>, Fail>
    requires given { file.0 < (D.world depot.old).given }
{
    let header = header_of(alloc, depot, file)?;
    let mut clusters = opened(alloc, depot, file, &header)?;
    Ok(claim_tables(alloc, depot, file, &header, &mut clusters))
}

// An image of an empty disk of 4 MiB in clusters of 4096, 32768 bytes long: cluster 3 has two entries of the first level, at 12288, and
// clusters 4 to 7 are counted besides.
fn image(alloc: Global, bytes: u64) -> Result<Vec<u8>, Fail> {
    let mut host = MemoryHost::new(alloc, false)?;
    let _file = made(alloc, &mut host, bytes, 12)?;
    let mut image = vec![in alloc; 0u8; 32768]?;
    put(&mut image, 0, host.file("s").ok_or("no file")?);
    put(&mut image, 8200, b"\0\x01\0\x01\0\x01\0\x01");
    Ok(image)
}

// Puts bytes at a place, as far as the image goes.
fn put(image: &mut Vec<u8>, at: usize, bytes: &[u8]) {
    for (i, byte) in bytes.iter().enumerate() {
        if let Some(place) = image.get_mut(at.saturating_add(i)) {
            *place = *byte;
        }
    }
}

// What an opening answers of the image with other words, each written as `AT:DIGITS`.
fn answer(alloc: Global, words: &str) -> Result<Result<(), MapRefusal>, Fail> {
    let mut image = image(alloc, 4 << 20)?;
    for word in words.split(' ') {
        let (at, digits) = word.split_once(':').ok_or("a place")?;
        let bytes = hex::decode(alloc, digits)?;
        put(&mut image, at.parse()?, &bytes);
    }
    let mut host = MemoryHost::new(alloc, false)?;
    host.put_file("s", &image)?;
    let file = found(&mut host)?;
    claimed(alloc, &mut host, file)
}

// The answer of a name.
fn named(name: &str, at: u64) -> Result<(), MapRefusal> {
    match name {
        "Ok" => Ok(()),
        "Reserved" => Err(MapRefusal::Reserved(at)),
        "Compressed" => Err(MapRefusal::Compressed(at)),
        "Misaligned" => Err(MapRefusal::Misaligned(at)),
        "PastLimit" => Err(MapRefusal::PastLimit(at)),
        "Overlap" => Err(MapRefusal::Overlap(at)),
        "Uncounted" => Err(MapRefusal::Uncounted(at)),
        _ => Err(MapRefusal::Memory),
    }
}

/// What is refused, where, and the words that are for it.
const ANSWERS: &str = "\
# Bit 63 alone names nothing, nor does bit 0 of a slot. A table is cluster 4, and two slots of it name clusters 5 and 6.
Ok 0 12288:8000000000000000
Ok 0 12288:8000000000004000 16408:8000000000005000 16416:0000000000006001 16424:8000000000000000 16432:0000000000000001
# The first level isn't counted, lies past the reach, or is the refcount table.
Uncounted 12288 8192:0001000100010000
PastLimit 4294967296 40:0000000100000000
Overlap 4096 40:0000000000001000
# Entries of the first level: bit 0, bit 56, and an offset that is no multiple of 4096.
Reserved 12288 12288:0000000000000001
Reserved 12288 12288:0100000000000000
Misaligned 12288 12288:0000000000004200
Reserved 12296 12296:0000000000000001
# Tables past the reach; that are the refcount table, its block, the first level, or another table; and one that isn't counted.
PastLimit 4294967296 12288:0000000100000000
Overlap 4096 12288:0000000000001000
Overlap 8192 12288:0000000000002000
Overlap 12288 12288:0000000000003000
Overlap 16384 12288:0000000000004000 12296:0000000000004000
Uncounted 32768 12288:0000000000008000
# Slots: compressed before all else, then reserved bits, then the offset.
Compressed 16408 12288:0000000000004000 16408:41000000000042fe
Reserved 16408 12288:0000000000004000 16408:0000000000004202
Reserved 16408 12288:0000000000004000 16408:0100000000005000
Misaligned 16408 12288:0000000000004000 16408:0000000000005200
Reserved 20472 12288:0000000000004000 20472:0000000000000002
# Slots that name their table, the refcount table, a cluster of another slot, one that isn't counted, or one past the reach; zeros too.
Overlap 16384 12288:0000000000004000 16408:0000000000004000
Overlap 4096 12288:0000000000004000 16408:0000000000001000
Overlap 4096 12288:0000000000004000 16408:0000000000001001
Overlap 20480 12288:0000000000004000 16408:0000000000005001 16416:0000000000005000
Uncounted 32768 12288:0000000000004000 16408:0000000000008000
Uncounted 32768 12288:0000000000004000 16408:0000000000008001
PastLimit 4294967296 12288:0000000000004000 16408:0000000100000000
# Past the end of a disk of 4096 bytes.
Reserved 16392 24:0000000000001000 12288:0000000000004000 16392:0000000000000002
Overlap 4096 24:0000000000001000 12288:0000000000004000 20472:0000000000001000
Reserved 12296 24:0000000000001000 12296:0000000000000001
# Of two faults the earlier is told: of two entries, of two slots, and a table's slots come before the next entry.
Reserved 12288 12288:0000000000000001 12296:0000000000004200
Overlap 4096 12288:0000000000004000 16408:0000000000001000 16416:4000000000000000
Reserved 16408 12288:0000000000004000 12296:0000000000000001 16408:0000000000000002
# A cluster is claimed in its turn: the second entry's table is refused that a slot of the first names.
Overlap 20480 12288:0000000000004000 12296:0000000000005000 16408:0000000000005000";

#[test]
fn the_first_fault_is_told(rt: HostRuntime) -> Result<(), Fail> {
    let alloc = rt.alloc();
    for line in ANSWERS.split('\n') {
        if line.starts_with('#') {
            continue;
        }
        let (name, rest) = line.split_once(' ').ok_or("a name")?;
        let (at, words) = rest.split_once(' ').ok_or("a place")?;
        let due = named(name, at.parse()?);
        assert_eq!(rt; answer(alloc, words)?, due, "{line}");
    }
    Ok(())
}

// How many reads it takes to go through the tables of an empty disk.
fn reads_of_tables(alloc: Global, bytes: u64) -> Result<u64, Fail> {
    let mut host = Counting {
        inner: MemoryHost::new(alloc, false)?,
        reads: 0,
        writes: 0,
        syncs: 0,
    };
    let file = made(alloc, &mut host, bytes, 9)?;
    host.reads = 0;
    let _clusters = open(alloc, &mut host, file)?;
    let opening = host.reads;
    let file = found(&mut host)?;
    host.reads = 0;
    match claimed(alloc, &mut host, file)? {
        Ok(()) => Ok(host.reads.saturating_sub(opening)),
        Err(_) => Err("refused".into()),
    }
}

// The first level of 300,000 entries has 2,400,000 bytes.
#[test]
fn the_first_level_is_read_in_few_calls(rt: HostRuntime) -> Result<(), Fail> {
    assert_eq!(rt; reads_of_tables(rt.alloc(), 300_000 * 32768)?, 3);
    Ok(())
}
