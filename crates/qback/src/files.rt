//! Regular files of the host: opened, made and removed. Nothing else is opened.

ghost use Rattle.std.specs.Prelude.{◌≡◌, ◌≢◌, true, false, IfOk};
ghost use Rattle.qback.specs.Holding.{AnswersWrites};

use crate::locks::{self, Hold};
use crate::opening::Opening;
use std::fs::{self, File, Metadata, OpenOptions};
use std::io::{self, ErrorKind};
use std::os::unix::fs::MetadataExt;
use std::path::Path;
use std::rt::Files;

/// Which file of the host it is, whatever its name.
#[derive(Clone, Copy, PartialEq)]
pub struct Node {
    device: u64,
    number: u64,
}

/// Which file was found, if it is a regular one.
fn regular(found: &Metadata) -> io::Result<Node> {
    if !found.is_file() {
        return Err(io::Error::from(ErrorKind::InvalidInput));
    }
    Ok(Node {
        device: found.dev(),
        number: found.ino(),
    })
}

/// The file by a number above those of the standard streams: where one of these is closed, what is meant for it must
/// not land in the file.
fn above_streams(file: &File) -> io::Result<File> {
    file.try_clone()
}

/// Opens a file, to read it alone where it may not be written.
fn open_any<R: Files<File = File>>(rt: &R, name: &str) -> io::Result<File> {
    match OpenOptions::new().read(true).write(true).open(rt, name) {
        Ok(file) => Ok(file),
        Err(error) => match error.kind() {
            ErrorKind::PermissionDenied | ErrorKind::ReadOnlyFilesystem => fs::open(rt, name),
            _ => Err(error),
        },
    }
}

/// Opens a regular file. It is looked at before, since opening another kind may wait, and again once it is open.
pub fn open<R: Files<File = File>>(rt: &R, name: &str) -> io::Result<Opening>
    ensures lasts { IfOk result (λ opening. opening.lasts ≡ true) }
    ensures hold { IfOk result (λ opening. opening.hold ≢ Hold.Alone) }
{
    regular(&fs::metadata(rt, name)?)?;
    let file = above_streams(&open_any(rt, name)?)?;
    let node = regular(&file.metadata()?)?;
    let hold = locks::share(&file)?;
    Ok(Opening {
        file,
        node,
        hold,
        lasts: true,
    })
}

/// The folder of a file.
fn folder_of(name: &str) -> &str {
    let folder = match Path::new(name).parent() {
        Some(parent) => parent.as_str(),
        None => "",
    };
    if folder.is_empty() { "." } else { folder }
}

/// Holds a file that was made, and waits until a crash leaves it.
fn settle<R: Files<File = File>>(rt: &R, name: &str, made: &File) -> io::Result<Opening>
    ensures lasts { IfOk result (λ opening. opening.lasts ≡ false) }
    ensures hold { IfOk result (λ opening. AnswersWrites opening.hold) }
{
    let file = above_streams(made)?;
    let node = regular(&file.metadata()?)?;
    let hold = locks::take(&file)?;
    file.sync_all()?;
    fs::open(rt, folder_of(name))?.sync_all()?;
    Ok(Opening {
        file,
        node,
        hold,
        lasts: false,
    })
}

/// Makes a file that a crash leaves. Where this fails once the file is there, it is removed.
pub fn create<R: Files<File = File>>(rt: &R, name: &str) -> io::Result<Opening>
    ensures lasts { IfOk result (λ opening. opening.lasts ≡ false) }
    ensures hold { IfOk result (λ opening. AnswersWrites opening.hold) }
{
    let made = File::create_new(rt, name)?;
    match settle(rt, name, &made) {
        Ok(opening) => Ok(opening),
        Err(error) => {
            remove(rt, name, &made);
            Err(error)
        }
    }
}

/// Removes a file that this run made, if its name still names it.
pub fn remove<R: Files<File = File>>(rt: &R, name: &str, made: &File) {
    let (Ok(open), Ok(named)) = (made.metadata(), fs::symlink_metadata(rt, name)) else {
        return;
    };
    if open.dev() == named.dev() && open.ino() == named.ino() {
        let _ = fs::remove_file(rt, name);
    }
}
