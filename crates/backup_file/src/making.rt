//! Makes a file with bytes that are at hand.

ghost use Rattle.std.specs.Prelude.{◌≡◌, ◌≤◌, ◌^◌, length, IfOk, IfErr};
ghost use Rattle.disk_model.specs.World.{World};
ghost use Rattle.file_device.specs.Names.{HasCreated};
ghost use Rattle.backup_file.specs.Creating.{Refuses};

use crate::create::CreateRefusal;
use disk_model::{Depot, FileNo, Made};
use file_device::{make, sync, write};

/// Makes a file of these bytes. A name that is there is found before anything is touched.
pub(crate) fn put_file<D: Depot>(
    depot: &mut D,
    name: &str,
    bytes: &[u8],
) -> Result<FileNo, CreateRefusal>
    requires { length bytes.now ≤ 2 ^ 62 }
    ensures made { IfOk result (λ file. HasCreated (λ c. c ≡ bytes.now) name.now file.0 (D.world depot.old) (D.world depot.new)) }
    ensures refuses { IfErr result (Refuses name.now (D.world depot.old) (D.world depot.new)) }
{
    match depot.find(name) {
        Ok(Some(_)) => return Err(CreateRefusal::Exists),
        Ok(None) => {}
        Err(_) => return Err(CreateRefusal::Failed),
    }
    let file = match make(depot, name) {
        Ok(Made::New(file)) => file,
        Ok(Made::Exists) => return Err(CreateRefusal::Exists),
        Err(_) => return Err(CreateRefusal::Failed),
    };
    match write(depot, file, 0, bytes) {
        Ok(()) => {}
        Err(_) => return Err(CreateRefusal::Failed),
    }
    match sync(depot, file) {
        Ok(()) => Ok(file),
        Err(_) => Err(CreateRefusal::Failed),
    }
}
