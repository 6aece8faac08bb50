//! The traits of a depot and of a console.

ghost use Rattle.std.specs.Prelude.{◌≡◌, ◌⊎◌, ◌+◌, ◌^◌, ◌<◌, ◌≤◌, ℕ, List, [], ◌∷◌, ◌++◌, take, length, IsTrue, Some, None, option_map, IfOk, IfSome, MatchResult, OnOk, OnErr};
ghost use Rattle.disk_model.specs.Files.{reading};
ghost use Rattle.disk_model.specs.World.{World, versions, IsSound, IsGiven, Runs, nothing, reads_of, only_text, Writes, HasWritten, Syncs, HasSynced, IsMade, MayMake, FindCause, ReadCause, WriteCause, PrintCause, IsQuiet, PrintsPart};
ghost use Rattle.disk_model.specs.declared.depot.WriteRefusal.TheVariants as refusals;

/// A file, by the number that `find` or `make` of its depot gave.
#[derive(Clone, Copy, Debug, PartialEq, Eq)]
pub struct FileNo(pub u32);

/// A call on the outside failed.
#[derive(Clone, Copy, Debug, PartialEq, Eq)]
pub struct Failed;

/// Why nothing more is written: no cluster is left for it, or a call on the file failed.
#[derive(Clone, Copy, Debug, PartialEq, Eq)]
pub enum WriteRefusal {
    NoRoom,
    Failed,
}

impl From<Failed> for WriteRefusal {
    ghost from_gives = { λ _ e. e ≡ refusals.Failed };

    fn from(_e: Failed) -> WriteRefusal {
        WriteRefusal::Failed
    }
}

/// What `make` found: a new, empty file, or one of that name that was there.
#[derive(Clone, Copy, Debug, PartialEq, Eq)]
pub enum Made {
    New(FileNo),
    Exists,
}

/// What lies outside of the program.
pub trait Outside {
    /// All that it tells, for contracts.
    ghost world: { Self → World };
}

/// Files by number, whose bytes a crash may leave torn.
///
/// Offsets and lengths are in bytes. Files only grow; what lies past a file's end reads as zeros. A call fails with
/// [`Failed`] only where the shared count of faults rose in it, and for a call on a file only where that file's count
/// of failed reads, or of failed writes, rose too. A call that succeeds raises no count.
pub trait Depot: Outside {
    /// The file of this name, if it is there.
    fn find(&mut self, name: &str) -> Result<Option<FileNo>, Failed>
        ensures found { IfOk result (λ file. IsTrue (Self.world self.old).tells → option_map (λ f. f.0) file ≡ (Self.world self.old).found name.now) }
        ensures given { IfOk result (λ file. IfSome file (λ f. IsGiven f.0 name.now (Self.world self.new))) }
        ensures run { Runs nothing (Self.world self.old) (Self.world self.new) }
        ensures quiet { OnOk result (IsQuiet (Self.world self.old) (Self.world self.new)) }
        ensures cause { FindCause (Self.world self.old) (Self.world self.new) result };

    /// Makes an empty file of this name, which a crash leaves in place. A file that is there stays as it is.
    fn make(&mut self, name: &str) -> Result<Made, Failed>
        ensures made { MatchResult result
            (λ made. IsMade made name.now (Self.world self.old) (Self.world self.new))
            (λ _. (f : ℕ) × MayMake name.now f (Self.world self.old) (Self.world self.new)) }
        ensures quiet { OnOk result (IsQuiet (Self.world self.old) (Self.world self.new)) }
        ensures cause { FindCause (Self.world self.old) (Self.world self.new) result };

    /// How many bytes a file has.
    fn size(&mut self, file: FileNo) -> Result<u64, Failed>
        requires { file.0 < (Self.world self.old).given }
        ensures size { IfOk result (λ n. IsTrue (Self.world self.old).tells → n ≡ length ((Self.world self.old).seen file.0)) }
        ensures run { Runs (reads_of file.0) (Self.world self.old) (Self.world self.new) }
        ensures quiet { OnOk result (IsQuiet (Self.world self.old) (Self.world self.new)) }
        ensures cause { ReadCause (Self.world self.old) (Self.world self.new) file.0 result };

    /// Reads bytes from an offset on.
    fn read_at(&mut self, file: FileNo, at: u64, out: &mut [u8]) -> Result<(), Failed>
        requires given { file.0 < (Self.world self.old).given }
        requires end { at + length out.old ≤ 2 ^ 62 }
        ensures bytes { OnOk result (IsTrue (Self.world self.old).tells → out.new ≡ reading ((Self.world self.old).seen file.0) at (length out.old)) }
        ensures run { Runs (reads_of file.0) (Self.world self.old) (Self.world self.new) }
        ensures quiet { OnOk result (IsQuiet (Self.world self.old) (Self.world self.new)) }
        ensures cause { ReadCause (Self.world self.old) (Self.world self.new) file.0 result };

    /// Writes bytes from an offset on. Until a sync that succeeds, a crash leaves each sector as before or as written;
    /// a write that failed leaves each sector old or new, and reads show which.
    fn write_at(&mut self, file: FileNo, at: u64, bytes: &[u8]) -> Result<(), Failed>
        requires given { file.0 < (Self.world self.old).given }
        requires end { at + length bytes.now ≤ 2 ^ 62 }
        ensures call { Writes file.0 at bytes.now (Self.world self.old) (Self.world self.new) }
        ensures done { OnOk result (HasWritten file.0 at bytes.now (Self.world self.old) (Self.world self.new)) }
        ensures quiet { OnOk result (IsQuiet (Self.world self.old) (Self.world self.new)) }
        ensures cause { WriteCause (Self.world self.old) (Self.world self.new) file.0 result };

    /// After it, a crash leaves what reads give. One that failed changes nothing that a crash may leave.
    fn sync(&mut self, file: FileNo) -> Result<(), Failed>
        requires { file.0 < (Self.world self.old).given }
        ensures call { Syncs file.0 (Self.world self.old) (Self.world self.new) }
        ensures done { OnOk result (HasSynced file.0 (Self.world self.old) (Self.world self.new)) }
        ensures failed { OnErr result (versions (Self.world self.new) file.0 ≡ versions (Self.world self.old) file.0) }
        ensures quiet { OnOk result (IsQuiet (Self.world self.old) (Self.world self.new)) }
        ensures cause { WriteCause (Self.world self.old) (Self.world self.new) file.0 result };

    /// Of each depot.
    ghost sound: { (depot : Self) → IsSound (Self.world depot) };
}

/// A place to print.
pub trait Console: Outside {
    /// Prints a text. One that fails has put out a part of it, from its start on.
    fn print(&mut self, text: &[u8]) -> Result<(), Failed>
        ensures printed { OnOk result (IsTrue (Self.world self.old).prints → (Self.world self.new).printed ≡ (Self.world self.old).printed ++ text.now) }
        ensures part { PrintsPart text.now (Self.world self.old) (Self.world self.new) }
        ensures run { Runs only_text (Self.world self.old) (Self.world self.new) }
        ensures quiet { OnOk result (IsQuiet (Self.world self.old) (Self.world self.new)) }
        ensures cause { PrintCause (Self.world self.old) (Self.world self.new) result };
}
