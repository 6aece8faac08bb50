//! Runs of `info FILE`.

use crate::image::{image, put_parts};
use crate::runs::{host_with, run_text};
use std::alloc::Global;
use std::test::Fail;

/// Whether `info` on a file of these bytes ends with this status and prints this text, in which `/` stands for a line's
/// end, and leaves the file as it is.
fn tells(alloc: Global, bytes: &[u8], status: u8, text: &str) -> Result<bool, Fail> {
    let run = run_text(alloc, host_with(alloc, &[("s", bytes)], &[])?, "info s")?;
    let stays = run.host.file("s") == Some(bytes);
    Ok(run.status == status && stays && run.has_printed(alloc, text)?)
}

/// Whether `info` refuses a file of these bytes for this reason.
fn refuses(alloc: Global, bytes: &[u8], reason: &str) -> Result<bool, Fail> {
    let line = format!(in alloc; "file s {reason}/")?;
    tells(alloc, bytes, 2, line.as_str())
}

/// Each fault, and what is put into the image of the tests to have it.
const FAULTS: &str = "\
Magic 0:71
Magic 3:fa
Version 4:00000002
Version 4:00000004
HeaderLength 100:00000060
HeaderLength 100:0000006c
HeaderLength 100:00000200
HeaderLength 100:01000070
ClusterBits 20:00000008
ClusterBits 20:00000016
ClusterBits 20:0100000c
Size 24:0000000000000000
Size 24:0000000000000201
# 2^40 + 512, in clusters of 65536 bytes, and 2^39 + 512 in clusters of 4096, of which there may be 2^27.
Size 20:000000100000010000000200
Size 24:0000008000000200
Backing 15:d0
Backing 8:01
Backing 15:d0 112:source
# A list that breaks leaves a disk a disk, and a backup, which may have a file under it, a backup.
Backing 15:d0 112:11223344ffffffff
Extensions 15:d0 112:target 120:record 184:11223344ffffffff
Extensions 15:d0 112:target 120:record 184:52424b31ffffffff
Encrypted 35:01
Snapshots 63:01
Dirty 79:01
Corrupt 79:02
ExternalData 79:04
Compression 79:08
Compression 104:01
ExtendedL2 79:10
Incompatible 79:20
Incompatible 72:80
RefcountOrder 99:03
RefcountOrder 99:05
L1Table 36:00000000
L1Table 36:00100001
# 2^21 + 512 bytes need two entries.
L1Table 24:0000000000200200
L1Table 40:0000000000000000
L1Table 46:32
RefcountTable 56:00000000
RefcountTable 56:00004001
RefcountTable 48:0000000000000000
RefcountTable 54:12
# The list ends with the first cluster: 120 and 3977 bytes are one too many.
Extensions 112:1122334400000f89
Extensions 112:6803f857ffffffff
Extensions 112:52424b31ffffffff
Extensions 112:bitmaps 144:bitmaps
Extensions 112:source 160:source
Extensions 112:source 160:target 168:record
Extensions 112:target 120:record 184:source
# An extension of unknown kind may have 304 bytes, or two of them 296 together, beside a header of 112.
TooLong 112:1122334400000131
TooLong 112:1122334400000f88
TooLong 112:1122334400000001 128:1122334400000121
TooLong 100:000001b0
TooLong 100:000001f8
BitmapsExtension 112:bitmaps 119:10
BitmapsExtension 112:bitmaps 119:20
BitmapsExtension 112:bitmaps 127:01
BitmapsExtension 112:bitmaps 123:00
BitmapsExtension 112:bitmaps 142:00
BitmapsExtension 112:bitmaps 142:51
BitmapsExtension 112:source 160:bitmaps 167:10
Autoclear 95:01
Autoclear 95:03 112:source
OwnExtension 112:source 119:29
OwnExtension 112:source 119:10
OwnExtension 112:52424b3100000000
OwnExtension 112:target 119:3f
# Behind 328 bytes of names its 64 bytes end at 520.
OwnExtension 112:6803f85700000148 448:target 456:record
Unbuilt 112:bitmaps
Unbuilt 95:01 112:source 160:bitmaps
RecordVersion 112:target 120:record 123:02
RecordVersion 112:target
RecordState 112:target 120:record 127:03
RecordKind 112:target 120:record 131:04
RecordKind 112:target 120:record 127:02
RecordUnit 112:target 120:record 134:02
RecordUnit 20:00000009 112:target 120:record";

#[test]
fn each_fault_is_told(rt: HostRuntime) -> Result<(), Fail> {
    let alloc = rt.alloc();
    for line in FAULTS.split('\n') {
        let (reason, parts) = line.split_once(' ').ok_or("a reason")?;
        if reason != "#" {
            let mut file = image(alloc)?;
            put_parts(alloc, &mut file, parts)?;
            assert!(rt; refuses(alloc, &file, reason)?, "{line}");
        }
    }
    Ok(())
}

#[test]
fn short_files_and_none_are_refused(rt: HostRuntime) -> Result<(), Fail> {
    let alloc = rt.alloc();
    let mut file = image(alloc)?;
    put_parts(alloc, &mut file, "100:00000068")?;
    assert!(rt; tells(alloc, &file, 0, PLAIN)?);
    file.truncate(104);
    assert!(rt; tells(alloc, &file, 0, PLAIN)?);
    for length in [103, 24, 1, 0] {
        file.truncate(length);
        assert!(rt; refuses(alloc, &file, "Short")?, "{length} bytes");
    }
    let run = run_text(
        alloc,
        host_with(alloc, &[("s", &file)], &[])?,
        "info nofile",
    )?;
    assert_eq!(rt; run.status, 2);
    assert_eq!(rt; run.host.printed(), b"file nofile Missing\n".as_slice());
    assert_eq!(rt; run.host.file("nofile"), None);
    Ok(())
}

/// The faults from the last in the order to the first. A backup gets one after the other and keeps them all, but for that
/// of the autoclear bit, which goes with the bitmaps extension.
const ORDER: &str = "\
RecordUnit 132:00000200
RecordKind 128:00000004
RecordState 124:00000003
RecordVersion 120:00000002
Unbuilt 184:bitmaps
OwnExtension 116:00000029
Autoclear 95:01
BitmapsExtension 168:238528750000001000000002000000000000000000000040
TooLong 192:1122334400000131
Extensions 512:1122334400001000
RefcountTable 56:00000000
L1Table 36:00000000
RefcountOrder 99:03
Incompatible 72:80
ExtendedL2 79:10
Compression 104:01
ExternalData 79:14
Corrupt 79:16
Dirty 79:17
Snapshots 63:01
Encrypted 35:01
Backing 14:0200
Size 24:0000000000000001
ClusterBits 20:00000008
HeaderLength 100:00000060
Version 4:00000002
Magic 0:71";

#[test]
fn the_first_of_many_faults_is_told(rt: HostRuntime) -> Result<(), Fail> {
    let alloc = rt.alloc();
    let mut file = image(alloc)?;
    put_parts(alloc, &mut file, "112:target 120:record")?;
    for line in ORDER.split('\n') {
        let (reason, part) = line.split_once(' ').ok_or("a reason")?;
        put_parts(alloc, &mut file, part)?;
        assert!(rt; refuses(alloc, &file, reason)?, "{line}");
    }
    file.truncate(103);
    assert!(rt; refuses(alloc, &file, "Short")?);
    Ok(())
}

/// What is told of the image as it is.
const PLAIN: &str = "kind image/size 16384/cluster 4096/";

/// What is told of files, `plain` for that of the image as it is, and what is put into the image to have them.
const TOLD: &str = "\
plain|
# What isn't looked at: the backing name's length alone, other bits, the content of the tables, bytes 105 to 111.
plain|16:0000000a
plain|64:0000000000000007
plain|80:ffffffffffffffff
plain|88:fffffffffffffffe
plain|105:01010101010101
plain|4096:0101 8192:0101 12288:0101
# Each number at its bound.
plain|36:00100000
plain|56:00004000
plain|100:000001a8
plain|40:7ffffffffffff000
kind image/size 512/cluster 4096/|24:0000000000000200
kind image/size 2097152/cluster 4096/|24:0000000000200000
kind image/size 549755813888/cluster 4096/|24:0000008000000000 36:00040000
kind image/size 1099511627776/cluster 2097152/|20:000000150000010000000000 36:0000000200000000004000000000000000200000
kind image/size 16384/cluster 512/|20:00000009
# A header of 104 bytes has no compression type: there its extensions begin.
kind source/size 16384/cluster 4096/id 30313233343536373839616263646566/epoch 7/|100:00000068 104:source
# Extensions of unknown kinds at their longest, and two kinds that aren't kept.
plain|112:1122334400000130
plain|112:1122334400000001 128:1122334400000120
plain|112:6803f85700000f88
plain|112:e2792aca00000300
# After the list's end nothing is an extension.
plain|120:source
kind source/size 16384/cluster 4096/id 30313233343536373839616263646566/epoch 7/|112:source
# A disk's extension may stand past the first sector: it begins at 600 here.
kind source/size 16384/cluster 4096/id 30313233343536373839616263646566/epoch 18446744073709551615/|112:6803f857000001dd 600:source 624:ffffffffffffffff
# A backup's may end with the sector, and it may have a file under it.
kind target/size 16384/cluster 4096/state blank/|15:d00000000a 112:6803f85700000140 440:target 448:record
kind target/size 16384/cluster 4096/state opened/|112:target 120:record 127:01
# Only a sealed one's kind, id and points are told.
kind target/size 16384/cluster 4096/state opened/|112:target 120:00000001000000010000000300001000 136:claim
kind target/size 16384/cluster 4096/state sealed/id 30313233343536373839616263646566/full/point 258.18446744073709551615/|112:target 120:00000001000000020000000100001000 136:claim
kind target/size 16384/cluster 4096/state sealed/id 30313233343536373839616263646566/since 3.4294967296/point 258.18446744073709551615/|112:target 120:00000001000000020000000200001000 136:claim
kind target/size 16384/cluster 4096/state sealed/id 30313233343536373839616263646566/loose/point 258.18446744073709551615/|112:target 120:00000001000000020000000300001000 136:claim";

#[test]
fn files_are_told(rt: HostRuntime) -> Result<(), Fail> {
    let alloc = rt.alloc();
    for line in TOLD.split('\n') {
        if let Some((text, parts)) = line.split_once('|') {
            let text = if text == "plain" { PLAIN } else { text };
            let mut file = image(alloc)?;
            put_parts(alloc, &mut file, parts)?;
            assert!(rt; tells(alloc, &file, 0, text)?, "{line}");
        } else {
            assert!(rt; line.starts_with("# "));
        }
    }
    Ok(())
}

/// An image in clusters of 131072 bytes, whose names of features end at 65488.
const LARGE: &str = "\
0:514649fb00000003 20:000000110000000000004000 36:0000000100000000000600000000000000020000 56:00000001 \
96:0000000400000070 112:6803f8570000ff58";

#[test]
fn the_list_ends_with_65536_bytes(rt: HostRuntime) -> Result<(), Fail> {
    let alloc = rt.alloc();
    let mut file = vec![in alloc; 0u8; 70000]?;
    put_parts(alloc, &mut file, LARGE)?;
    put_parts(alloc, &mut file, "65488:source")?;
    let text = "kind source/size 16384/cluster 131072/id 30313233343536373839616263646566/epoch 7/";
    assert!(rt; tells(alloc, &file, 0, text)?);
    put_parts(alloc, &mut file, "65495:29")?;
    assert!(rt; refuses(alloc, &file, "Extensions")?);
    // What begins with the list's last 8 bytes has no room for content, and past that nothing is an extension.
    put_parts(alloc, &mut file, "119:80 65528:52424b3100000001")?;
    assert!(rt; refuses(alloc, &file, "Extensions")?);
    put_parts(alloc, &mut file, "65535:00")?;
    assert!(rt; refuses(alloc, &file, "OwnExtension")?);
    put_parts(alloc, &mut file, "119:88 65536:source")?;
    assert!(rt; tells(alloc, &file, 0, "kind image/size 16384/cluster 131072/")?);
    Ok(())
}
