//! Calls on files of a host in memory, by the layers that stand on a depot.

ghost use Rattle.std.specs.Prelude.{◌<◌, ◌≤◌, length, IfOk};
ghost use Rattle.disk_memory.specs.Host.{told_by};

use disk_memory::MemoryHost;
use disk_model::{Depot, Failed, FileNo, Made};
use file_device::{copy, make, read, size, sync, word, write};
use first_sector::rewrite_first_sector;

fn found(host: &mut MemoryHost, name: &str) -> Result<FileNo, Failed>
    ensures given { IfOk result (λ file. file.0 < (told_by host.new).given) }
    ensures more { (told_by host.old).given ≤ (told_by host.new).given }
{
    match host.find(name)? {
        Some(file) => Ok(file),
        None => Err(Failed),
    }
}

// Writes a file from its start on, and syncs it.
fn fill(host: &mut MemoryHost, bytes: &[u8]) -> Result<(), Failed>
    requires { length bytes.now ≤ 512 }
{
    let file = found(host, "disk")?;
    write(host, file, 0, bytes)?;
    let again = found(host, "disk")?;
    sync(host, again)
}

// Copies a range of one file into another.
fn copy_range(host: &mut MemoryHost, buffer: &mut [u8]) -> Result<(), Failed>
    requires { length buffer.old ≤ 512 }
{
    let from = found(host, "disk")?;
    let to = found(host, "copy")?;
    if from.0 == to.0 {
        return Err(Failed);
    }
    copy(host, from, 8, to, 2, buffer)
}

// Reads the copy. How long it is, and the number at its third byte.
fn look(host: &mut MemoryHost, out: &mut [u8]) -> Result<(u64, u64), Failed>
    requires { length out.old ≤ 512 }
{
    let first = found(host, "copy")?;
    read(host, first, 0, out)?;
    let second = found(host, "copy")?;
    let long = size(host, second)?;
    let third = found(host, "copy")?;
    let number = word(host, third, 2)?;
    Ok((long, number))
}

fn renew(host: &mut MemoryHost, sector: &[u8; 512]) -> Result<(), Failed> {
    let file = found(host, "disk")?;
    rewrite_first_sector(host, file, sector)
}

#[test]
fn files_are_made_written_copied_and_renewed(rt: HostRuntime) {
    let mut host = MemoryHost::new(rt.alloc(), true).expect(&rt, "memory");
    assert_eq!(rt; make(&mut host, "disk"), Ok(Made::New(FileNo(0))));
    assert_eq!(rt; make(&mut host, "copy"), Ok(Made::New(FileNo(1))));
    assert_eq!(rt; make(&mut host, "disk"), Ok(Made::Exists));
    assert_eq!(rt; fill(&mut host, b"0123456789abcdefghij"), Ok(()));
    let mut buffer = [0u8; 8];
    assert_eq!(rt; copy_range(&mut host, &mut buffer), Ok(()));
    let mut out = [1u8; 12];
    assert_eq!(rt; look(&mut host, &mut out), Ok((10, 0x3839_6162_6364_6566)));
    assert_eq!(rt; out.as_slice(), b"\0\089abcdef\0\0".as_slice());
    assert_eq!(rt; renew(&mut host, &[b'z'; 512]), Ok(()));
    assert_eq!(rt; host.file("disk"), Some([b'z'; 512].as_slice()));
}

#[test]
fn a_failing_call_is_told(rt: HostRuntime) {
    let mut host = MemoryHost::new(rt.alloc(), true).expect(&rt, "memory");
    host.put_file("disk", &[b'a'; 512]).expect(&rt, "memory");
    host.fail_calls(&[3]).expect(&rt, "memory");
    assert_eq!(rt; renew(&mut host, &[b'z'; 512]), Err(Failed));
    assert_eq!(rt; host.file("disk"), Some([b'a'; 512].as_slice()));
}
