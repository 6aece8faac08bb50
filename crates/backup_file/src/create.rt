//! Makes disks and backups.

ghost use Rattle.std.specs.Prelude.{◌≡◌, ◌≢◌, ◌≤◌, ℕ, List, true, IsTrue, IsSome, Some, None, length, option_map, string_bytes, IfOk, IfErr, IfSome, Result};
ghost use Rattle.disk_model.specs.World.{World};
ghost use Rattle.backup_file.specs.Layout.{is_form};
ghost use Rattle.backup_file.specs.Made.{IsNewSource, IsNewTarget};
ghost use Rattle.file_device.specs.Names.{HasCreated};
ghost use Rattle.backup_file.specs.Creating.{Refuses};

use crate::contents::{source_bytes, target_bytes};
use crate::making::put_file;
use disk_model::{Depot, FileNo};
use std::alloc::Global;
use thiserror::Error;

/// Why a file isn't made.
#[derive(Clone, Copy, Debug, PartialEq, Eq, Error)]
pub enum CreateRefusal {
    /// The name is there.
    #[error("the file is there")]
    Exists,
    /// A call on the depot failed.
    #[error("a call on the depot failed")]
    Failed,
    /// There was no memory.
    #[error("out of memory")]
    Memory,
}

/// Makes a disk of zeros, of `size` bytes, in clusters of 2 to the power `cluster_bits` bytes, with this id.
pub fn create_source<D: Depot>(
    alloc: Global,
    depot: &mut D,
    name: &str,
    size: u64,
    cluster_bits: u32,
    disk: [u8; 16],
) -> Result<FileNo, CreateRefusal>
    requires { is_form cluster_bits size ≡ true }
    ensures made { IfOk result (λ file. HasCreated (IsNewSource cluster_bits size disk) name.now file.0 (D.world depot.old) (D.world depot.new)) }
    ensures refuses { IfErr result (Refuses name.now (D.world depot.old) (D.world depot.new)) }
{
    match source_bytes(alloc, size, cluster_bits, disk) {
        Ok(bytes) => put_file(depot, name, &bytes),
        Err(_) => Err(CreateRefusal::Memory),
    }
}

/// Makes a backup with nothing in it, for a disk of `size` bytes, in clusters of 2 to the power `cluster_bits` bytes. It
/// names the file under it, where there is one, by 1 to 255 bytes.
pub fn create_target<D: Depot>(
    alloc: Global,
    depot: &mut D,
    name: &str,
    size: u64,
    cluster_bits: u32,
    backing: Option<&str>,
) -> Result<FileNo, CreateRefusal>
    requires form { is_form cluster_bits size ≡ true }
    requires backing { IfSome backing (λ b. (1 ≤ length b.now) × (length b.now ≤ 255)) }
    ensures made { IfOk result (λ file. HasCreated (IsNewTarget cluster_bits size (option_map (λ b. b.now) backing.entry)) name.now file.0 (D.world depot.old) (D.world depot.new)) }
    ensures refuses { IfErr result (Refuses name.now (D.world depot.old) (D.world depot.new)) }
{
    match target_bytes(alloc, size, cluster_bits, backing) {
        Ok(bytes) => put_file(depot, name, &bytes),
        Err(_) => Err(CreateRefusal::Memory),
    }
}
