//! The host: its files, its printed text, its calls.

ghost use Rattle.std.specs.Prelude.{◌≡◌, ◌+◌, ◌-◌, ◌^◌, ◌<◌, ◌≤◌, ◌++◌, [], length, get_or, ℕ, ◌↔◌, None, false, IsTrue, IfOk, IfSome, IsSome, IsOk, MatchResult, OnOk, OnErr, option_map, string_bytes, vec_capacity};
ghost use Rattle.std.specs.List.{Contains};
ghost use Rattle.disk_memory.specs.Held.{IsKept, held_of};

use crate::files::{
    File, NAME, is_among, make_room, named, overwrite, place, raised, read, refill, roomy_files,
    widen,
};
use crate::log::{Call, note_put, note_sync};
use crate::outcomes::outcome;
use disk_model::{Console, Depot, Failed, FileNo, Made, Outside};
use std::alloc::{AllocError, Global};

/// Out of memory.
pub type Memory = AllocError;

/// A host in memory.
///
/// Its calls are numbered from 1 on, in the order made, each call of a depot or a console counting.
#[derive(Drop)]
pub struct MemoryHost {
    alloc: Global,
    keep: bool,
    files: Vec<File>,
    log: Vec<Call>,
    printed: Vec<u8>,
    faults: u64,
    print_faults: u64,
    made: u64,
    failing: Vec<u64>,
    // files that are made before memory is asked for, the last of them first
    spare: Vec<File>,
    ghost kept: { IsKept (held_of keep files.items log.items printed.items faults print_faults) },
}

impl MemoryHost {
    ghost use Rattle.disk_memory.specs.Host.{held, told_by, calls_made, calls_failing, room, KeepsRoom, KeepsRoomButOne};
    ghost use Rattle.disk_memory.specs.Room.{AllFrom, HasRoom, IsRoomier, IsEmptyFile, HasMoreSpares, with_place, less_spare};
    ghost use Rattle.disk_memory.specs.Held.{number_of};
    ghost use Rattle.disk_memory.specs.Outcomes.{IsLeft};
    ghost use Rattle.disk_memory.specs.Steps.{raised, no_files, with_some, HasPut, with_content, with_file, with_bytes, with_sync, with_text, failed_find, failed_read, failed_write, failed_print};

    /// A host with no files, which keeps its calls where `keep_calls` is true.
    pub fn new(alloc: Global, keep_calls: bool) -> Result<MemoryHost, Memory>
        ensures held { IfOk result (λ host. held host ≡ no_files keep_calls) }
        ensures calls { IfOk result (λ host. calls_made host ≡ 0) }
        ensures failing { IfOk result (λ host. calls_failing host ≡ []) }
    {
        Ok(MemoryHost {
            alloc,
            keep: keep_calls,
            files: Vec::new(alloc),
            log: Vec::new(alloc),
            printed: Vec::new(alloc),
            faults: 0,
            print_faults: 0,
            made: 0,
            failing: Vec::new(alloc),
            spare: Vec::new(alloc),
        })
    }

    /// Puts a file of this name, all of it synced. A file of that name gets these bytes in place of its own.
    ///
    /// Fails where memory runs out, or at the 2^32nd file, and then changes nothing.
    pub fn put_file(&mut self, name: &str, bytes: &[u8]) -> Result<(), Memory>
        ensures done { OnOk result ((f : ℕ) × HasPut name.now bytes.now f (told_by self.old) (told_by self.new)) }
        ensures failed { OnErr result (held self.new ≡ held self.old) }
        ensures calls { calls_made self.new ≡ calls_made self.old }
        ensures failing { calls_failing self.new ≡ calls_failing self.old }
        ensures room { KeepsRoomButOne self.old self.new }
        ensures sure { (more size : ℕ) → HasRoom (more + 1) size (room self.old) → (told_by self.old).outcomes ≡ false → length name.now ≤ 4096 → length bytes.now ≤ size → IsOk result }
    {
        match self.number(name) {
            Some(number) => self.replace(number, bytes),
            None => {
                let _number = self.add(name, bytes)?;
                Ok(())
            }
        }
    }

    /// The bytes of the file of this name, if it is there, as reads give them.
    pub fn file(&self, name: &str) -> Option<&[u8]>
        ensures { option_map (λ bytes. bytes.now) result ≡ option_map (told_by self.now).seen ((told_by self.now).found name.now) }
    {
        match self.number(name) {
            Some(number) => Some(&self.files[number as usize].bytes),
            None => None,
        }
    }

    /// The text printed so far.
    pub fn printed(&self) -> &[u8]
        ensures { result.now ≡ (told_by self.now).printed }
    {
        &self.printed
    }

    /// From now on the calls of these numbers fail, and only these where memory lasts.
    ///
    /// Fails where memory runs out, and then changes nothing.
    pub fn fail_calls(&mut self, numbers: &[u64]) -> Result<(), Memory>
        ensures done { OnOk result (calls_failing self.new ≡ numbers.now) }
        ensures failed { OnErr result (calls_failing self.new ≡ calls_failing self.old) }
        ensures held { held self.new ≡ held self.old }
        ensures calls { calls_made self.new ≡ calls_made self.old }
        ensures room { room self.new ≡ room self.old }
    {
        self.failing = numbers.to_vec(self.alloc)?;
        Ok(())
    }

    /// Makes room for so many further files, each of a name of up to 4096 bytes, and for each file and the printed text
    /// to grow to so many bytes. A call that stays within it takes no memory, but to keep what it did.
    ///
    /// Fails where memory runs out, or where the files were 2^32 or more. Room that was made before stays, whatever it
    /// answers. A file that is put takes of it as one that is made does.
    pub fn reserve(&mut self, files: u32, bytes: u64) -> Result<(), Memory>
        ensures done { OnOk result (HasRoom files bytes (room self.new)) }
        ensures room { KeepsRoom self.old self.new }
        ensures held { held self.new ≡ held self.old }
        ensures calls { calls_made self.new ≡ calls_made self.old }
        ensures failing { calls_failing self.new ≡ calls_failing self.old }
    {
        self.widen_list(files as usize)?;
        self.widen_text(bytes as usize)?;
        self.widen_files(bytes as usize)?;
        self.widen_spare(bytes as usize)?;
        self.add_spare(files as usize, bytes as usize)
    }

    /// How many calls were made. It stays at 2^64 - 1 once there.
    pub fn calls(&self) -> u64
        ensures { result ≡ calls_made self.now }
    {
        self.made
    }

    /// Whether it keeps its calls, and so tells what a crash may leave.
    pub fn keeps_calls(&self) -> bool
        ensures { IsTrue result ↔ IsTrue (told_by self.now).outcomes }
    {
        self.keep
    }

    /// How many moments there were: these have the numbers from 0 on.
    pub fn moments(&self) -> u64
        ensures { result ≡ (told_by self.now).now + 1 }
    {
        self.log.len() as u64 + 1
    }

    /// A host with the files that a crash at a moment may leave, all of them synced, which keeps its calls.
    ///
    /// The choice says which: 0 what was synced, 1 what reads gave then, another number some mixture of sectors of 512
    /// bytes and some length between. Fails where memory runs out.
    pub fn pick_outcome(&self, moment: u64, choice: u64) -> Result<MemoryHost, Memory>
        requires told { IsTrue (told_by self.now).outcomes }
        requires moment { moment ≤ (told_by self.now).now }
        ensures left { IfOk result (λ host. IsLeft choice moment (told_by self.now) (told_by host)) }
        ensures calls { IfOk result (λ host. calls_made host ≡ 0) }
        ensures failing { IfOk result (λ host. calls_failing host ≡ []) }
    {
        let log = &self.log[..moment as usize];
        let mut left = MemoryHost::new(self.alloc, true)?;
        for (number, file) in self.files.iter().enumerate() {
            let bytes = outcome(self.alloc, log, number as u32, choice)?;
            left.add_some(file.name.as_str(), bytes)?;
        }
        Ok(left)
    }

    // Adds a file, if there is one.
    fn add_some(&mut self, name: &str, bytes: Option<Vec<u8>>) -> Result<(), Memory>
        requires { number_of (held self.old).names name.now ≡ None }
        ensures ok { OnOk result (held self.new ≡ with_some name.now (option_map (λ b. b.items) bytes) (held self.old)) }
        ensures calls { calls_made self.new ≡ calls_made self.old }
        ensures failing { calls_failing self.new ≡ calls_failing self.old }
    {
        if let Some(found) = bytes {
            let _number = self.add(name, &found)?;
        }
        Ok(())
    }

    // Counts a call. Whether it is one that fails.
    fn begins_failing(&mut self) -> bool
        ensures held { held self.new ≡ held self.old }
        ensures calls { calls_made self.new ≡ raised (calls_made self.old) }
        ensures failing { calls_failing self.new ≡ calls_failing self.old }
        ensures due { IsTrue result ↔ Contains (calls_failing self.old) (calls_made self.new) }
        ensures room { room self.new ≡ room self.old }
    {
        self.made = raised(self.made);
        is_among(self.made, &self.failing)
    }

    // The number of the file of a name.
    fn number(&self, name: &str) -> Option<u32>
        ensures { result ≡ number_of (held self.now).names name.now }
    {
        match place(&self.files, name) {
            Some(at) => Some(at as u32),
            None => None,
        }
    }

    // Adds a file of a new name, all of it synced, in room that was made for it if there is some.
    fn add(&mut self, name: &str, bytes: &[u8]) -> Result<u32, Memory>
        requires { number_of (held self.old).names name.now ≡ None }
        ensures ok { IfOk result (λ file. (file ≡ length (held self.old).names) × (held self.new ≡ with_file name.now bytes.now (held self.old))) }
        ensures err { OnErr result (held self.new ≡ held self.old) }
        ensures calls { calls_made self.new ≡ calls_made self.old }
        ensures failing { calls_failing self.new ≡ calls_failing self.old }
        ensures room { KeepsRoomButOne self.old self.new }
        ensures sure { (more size : ℕ) → HasRoom (more + 1) size (room self.old) → (held self.old).keep ≡ false → length name.now ≤ 4096 → length bytes.now ≤ size → IsOk result }
    {
        let mut file = self.empty_file(name)?;
        file.bytes.extend_from_slice(bytes)?;
        self.push_file(file)
    }

    // An empty file, the last of those that are kept to be made if there is one.
    fn empty_file(&mut self, name: &str) -> Result<File, Memory>
        ensures file { IfOk result (λ file. IsEmptyFile name.now file) }
        ensures held { held self.new ≡ held self.old }
        ensures calls { calls_made self.new ≡ calls_made self.old }
        ensures failing { calls_failing self.new ≡ calls_failing self.old }
        ensures room { room self.new ≡ less_spare (room self.old) }
        ensures size { IfOk result (λ file. 0 < length (room self.old).spares → vec_capacity file.bytes ≡ get_or (room self.old).spares (length (room self.old).spares - 1) 0) }
        ensures sure { OnErr result (0 < length (room self.old).names → get_or (room self.old).names (length (room self.old).names - 1) 0 < length name.now) }
    {
        match self.spare.pop() {
            Some(file) => named(file, name),
            None => Ok(File {
                name: String::from_str(self.alloc, name)?,
                bytes: Vec::new(self.alloc),
                reads: 0,
                writes: 0,
            }),
        }
    }

    // Adds a file of a new name, all of it synced.
    fn push_file(&mut self, file: File) -> Result<u32, Memory>
        requires name { number_of (held self.old).names (string_bytes file.name) ≡ None }
        requires reads { file.reads ≡ 0 }
        requires writes { file.writes ≡ 0 }
        ensures ok { IfOk result (λ number. (number ≡ length (held self.old).names) × (held self.new ≡ with_file (string_bytes file.name) file.bytes.items (held self.old))) }
        ensures err { OnErr result (held self.new ≡ held self.old) }
        ensures calls { calls_made self.new ≡ calls_made self.old }
        ensures failing { calls_failing self.new ≡ calls_failing self.old }
        ensures room { OnOk result (IsRoomier (with_place (vec_capacity file.bytes) (room self.old)) (room self.new)) }
        ensures no_room { OnErr result (IsRoomier (room self.old) (room self.new)) }
        ensures sure { (held self.old).keep ≡ false → length (room self.old).files < (room self.old).places → length (room self.old).files + 1 < 2 ^ 32 → IsOk result }
    {
        let number = self.files.len();
        if number >= u32::MAX as usize {
            return Err(AllocError);
        }
        self.files.reserve(1)?;
        note_put(
            self.alloc,
            self.keep,
            &mut self.log,
            number as u32,
            &file.bytes,
        )?;
        self.files.push_reserved(file);
        Ok(number as u32)
    }

    // Makes room for so many further files in the list.
    fn widen_list(&mut self, files: usize) -> Result<(), Memory>
        ensures held { held self.new ≡ held self.old }
        ensures calls { calls_made self.new ≡ calls_made self.old }
        ensures failing { calls_failing self.new ≡ calls_failing self.old }
        ensures room { IsRoomier (room self.old) (room self.new) }
        ensures places { OnOk result (length (room self.new).files + files ≤ (room self.new).places) }
        ensures numbers { OnOk result (length (room self.new).files + files < 2 ^ 32) }
    {
        if self.files.len().saturating_add(files) > u32::MAX as usize {
            return Err(AllocError);
        }
        self.files.reserve(files)
    }

    // Makes room for a text so long.
    fn widen_text(&mut self, bytes: usize) -> Result<(), Memory>
        ensures held { held self.new ≡ held self.old }
        ensures calls { calls_made self.new ≡ calls_made self.old }
        ensures failing { calls_failing self.new ≡ calls_failing self.old }
        ensures room { IsRoomier (room self.old) (room self.new) }
        ensures text { OnOk result (bytes ≤ (room self.new).printed) }
    {
        make_room(&mut self.printed, bytes)
    }

    // Makes room in each file.
    fn widen_files(&mut self, bytes: usize) -> Result<(), Memory>
        ensures held { held self.new ≡ held self.old }
        ensures calls { calls_made self.new ≡ calls_made self.old }
        ensures failing { calls_failing self.new ≡ calls_failing self.old }
        ensures room { IsRoomier (room self.old) (room self.new) }
        ensures files { OnOk result (AllFrom bytes (room self.new).files) }
    {
        widen(&mut self.files, 0, bytes)
    }

    // Makes room in each file that is kept to be made.
    fn widen_spare(&mut self, bytes: usize) -> Result<(), Memory>
        ensures held { held self.new ≡ held self.old }
        ensures calls { calls_made self.new ≡ calls_made self.old }
        ensures failing { calls_failing self.new ≡ calls_failing self.old }
        ensures room { IsRoomier (room self.old) (room self.new) }
        ensures names { OnOk result (AllFrom 4096 (room self.new).names) }
        ensures spares { OnOk result (AllFrom bytes (room self.new).spares) }
    {
        widen(&mut self.spare, NAME, bytes)
    }

    // Keeps so many files to be made, those that were kept before last.
    fn add_spare(&mut self, files: usize, bytes: usize) -> Result<(), Memory>
        ensures held { held self.new ≡ held self.old }
        ensures calls { calls_made self.new ≡ calls_made self.old }
        ensures failing { calls_failing self.new ≡ calls_failing self.old }
        ensures room { HasMoreSpares (room self.old) (room self.new) }
        ensures some { OnOk result (files ≤ length (room self.new).spares) }
        ensures names { OnOk result (AllFrom 4096 (room self.old).names → AllFrom 4096 (room self.new).names) }
        ensures spares { OnOk result (AllFrom bytes (room self.old).spares → AllFrom bytes (room self.new).spares) }
    {
        let missing = files.saturating_sub(self.spare.len());
        let mut fresh = roomy_files(self.alloc, missing, bytes)?;
        fresh.append(&mut self.spare)?;
        self.spare = fresh;
        Ok(())
    }

    // Gives a file other bytes, all of them synced.
    fn replace(&mut self, file: u32, bytes: &[u8]) -> Result<(), Memory>
        requires { file < length (held self.old).names }
        ensures ok { OnOk result (held self.new ≡ with_content file bytes.now (held self.old)) }
        ensures err { OnErr result (held self.new ≡ held self.old) }
        ensures calls { calls_made self.new ≡ calls_made self.old }
        ensures failing { calls_failing self.new ≡ calls_failing self.old }
        ensures room { IsRoomier (room self.old) (room self.new) }
        ensures sure { (held self.old).keep ≡ false → length bytes.now ≤ get_or (room self.old).files file 0 → IsOk result }
    {
        let target = &mut self.files[file as usize];
        refill(self.alloc, self.keep, &mut self.log, target, file, bytes)
    }

    // Writes bytes into a file.
    fn overwrite(&mut self, file: u32, at: u64, bytes: &[u8]) -> Result<(), Memory>
        requires there { file < length (held self.old).names }
        requires end { at + length bytes.now ≤ 2 ^ 62 }
        ensures ok { OnOk result (held self.new ≡ with_bytes file at bytes.now (held self.old)) }
        ensures err { OnErr result (held self.new ≡ held self.old) }
        ensures calls { calls_made self.new ≡ calls_made self.old }
        ensures failing { calls_failing self.new ≡ calls_failing self.old }
        ensures room { IsRoomier (room self.old) (room self.new) }
        ensures sure { (held self.old).keep ≡ false → at + length bytes.now ≤ get_or (room self.old).files file 0 → IsOk result }
    {
        let target = &mut self.files[file as usize];
        overwrite(
            self.alloc,
            self.keep,
            &mut self.log,
            target,
            file,
            at,
            bytes,
        )
    }

    // Syncs a file.
    fn note_sync(&mut self, file: u32) -> Result<(), Memory>
        requires { file < length (held self.old).names }
        ensures ok { OnOk result (held self.new ≡ with_sync file (held self.old)) }
        ensures err { OnErr result (held self.new ≡ held self.old) }
        ensures calls { calls_made self.new ≡ calls_made self.old }
        ensures failing { calls_failing self.new ≡ calls_failing self.old }
        ensures room { room self.new ≡ room self.old }
        ensures sure { (held self.old).keep ≡ false → IsOk result }
    {
        note_sync(self.keep, &mut self.log, file)?;
        Ok(())
    }

    // Adds to the printed text.
    fn put_out(&mut self, text: &[u8]) -> Result<(), Memory>
        ensures ok { OnOk result (held self.new ≡ with_text text.now (held self.old)) }
        ensures err { OnErr result (held self.new ≡ held self.old) }
        ensures calls { calls_made self.new ≡ calls_made self.old }
        ensures failing { calls_failing self.new ≡ calls_failing self.old }
        ensures room { IsRoomier (room self.old) (room self.new) }
        ensures sure { length (held self.old).printed + length text.now ≤ (room self.old).printed → IsOk result }
    {
        self.printed.extend_from_slice(text)
    }

    fn fail_find(&mut self)
        ensures held { held self.new ≡ failed_find (held self.old) }
        ensures calls { calls_made self.new ≡ calls_made self.old }
        ensures failing { calls_failing self.new ≡ calls_failing self.old }
        ensures room { room self.new ≡ room self.old }
    {
        self.faults = raised(self.faults);
    }

    fn fail_read(&mut self, file: u32)
        requires { file < length (held self.old).names }
        ensures held { held self.new ≡ failed_read file (held self.old) }
        ensures calls { calls_made self.new ≡ calls_made self.old }
        ensures failing { calls_failing self.new ≡ calls_failing self.old }
        ensures room { room self.new ≡ room self.old }
    {
        self.faults = raised(self.faults);
        let failed = &mut self.files[file as usize];
        failed.reads = raised(failed.reads);
    }

    fn fail_write(&mut self, file: u32)
        requires { file < length (held self.old).names }
        ensures held { held self.new ≡ failed_write file (held self.old) }
        ensures calls { calls_made self.new ≡ calls_made self.old }
        ensures failing { calls_failing self.new ≡ calls_failing self.old }
        ensures room { room self.new ≡ room self.old }
    {
        self.faults = raised(self.faults);
        let failed = &mut self.files[file as usize];
        failed.writes = raised(failed.writes);
    }

    fn fail_print(&mut self)
        ensures held { held self.new ≡ failed_print (held self.old) }
        ensures calls { calls_made self.new ≡ calls_made self.old }
        ensures failing { calls_failing self.new ≡ calls_failing self.old }
        ensures room { room self.new ≡ room self.old }
    {
        self.faults = raised(self.faults);
        self.print_faults = raised(self.print_faults);
    }
}

impl Outside for MemoryHost {
    ghost use Rattle.disk_memory.specs.Host.{held};
    ghost use Rattle.disk_memory.specs.Held.{world_of};

    ghost world = { λ host. world_of (held host) };
}

impl Depot for MemoryHost {
    ghost use Rattle.disk_memory.specs.Host.{held, told_by, room, IsCounted, FailsByNumber, IsReady, Stays, KeepsRoom, KeepsRoomButOne};
    ghost use Rattle.disk_memory.specs.Room.{HasRoom};
    ghost use Rattle.disk_model.specs.Files.{reading};
    ghost use Rattle.disk_model.specs.World.{versions, IsGiven, Runs, nothing, reads_of, Writes, HasWritten, Syncs, HasSynced, IsMade, MayMake, FindCause, ReadCause, WriteCause, IsQuiet};
    ghost use Rattle.disk_memory.specs.Laws.{world_sound};

    ghost sound = { λ host. world_sound (held host) host.kept };

    fn find(&mut self, name: &str) -> Result<Option<FileNo>, Failed>
        ensures found { IfOk result (λ file. IsTrue (told_by self.old).tells → option_map (λ f. f.0) file ≡ (told_by self.old).found name.now) }
        ensures given { IfOk result (λ file. IfSome file (λ f. IsGiven f.0 name.now (told_by self.new))) }
        ensures run { Runs nothing (told_by self.old) (told_by self.new) }
        ensures quiet { OnOk result (IsQuiet (told_by self.old) (told_by self.new)) }
        ensures cause { FindCause (told_by self.old) (told_by self.new) result }
        ensures counted { IsCounted self.old self.new result }
        ensures sure { FailsByNumber self.old self.new result }
        ensures room { KeepsRoom self.old self.new }
        ensures ready { (more size : ℕ) → IsReady more size self.old → Stays more size self.new result }
    {
        if self.begins_failing() {
            self.fail_find();
            return Err(Failed);
        }
        match self.number(name) {
            Some(number) => Ok(Some(FileNo(number))),
            None => Ok(None),
        }
    }

    fn make(&mut self, name: &str) -> Result<Made, Failed>
        ensures made { MatchResult result
            (λ made. IsMade made name.now (told_by self.old) (told_by self.new))
            (λ _. (f : ℕ) × MayMake name.now f (told_by self.old) (told_by self.new)) }
        ensures quiet { OnOk result (IsQuiet (told_by self.old) (told_by self.new)) }
        ensures cause { FindCause (told_by self.old) (told_by self.new) result }
        ensures counted { IsCounted self.old self.new result }
        ensures sure { (more size : ℕ) → HasRoom (more + 1) size (room self.old) → (told_by self.old).outcomes ≡ false → length name.now ≤ 4096 → FailsByNumber self.old self.new result }
        ensures room { KeepsRoomButOne self.old self.new }
        ensures there { IsSome ((told_by self.old).found name.now) → FailsByNumber self.old self.new result × KeepsRoom self.old self.new }
        ensures ready { (more size : ℕ) → IsReady (more + 1) size self.old → length name.now ≤ 4096 → Stays more size self.new result }
    {
        if self.begins_failing() {
            self.fail_find();
            return Err(Failed);
        }
        match self.number(name) {
            Some(_) => Ok(Made::Exists),
            None => match self.add(name, &[]) {
                Ok(number) => Ok(Made::New(FileNo(number))),
                Err(_) => {
                    self.fail_find();
                    Err(Failed)
                }
            },
        }
    }

    fn size(&mut self, file: FileNo) -> Result<u64, Failed>
        requires { file.0 < (told_by self.old).given }
        ensures size { IfOk result (λ n. IsTrue (told_by self.old).tells → n ≡ length ((told_by self.old).seen file.0)) }
        ensures run { Runs (reads_of file.0) (told_by self.old) (told_by self.new) }
        ensures quiet { OnOk result (IsQuiet (told_by self.old) (told_by self.new)) }
        ensures cause { ReadCause (told_by self.old) (told_by self.new) file.0 result }
        ensures counted { IsCounted self.old self.new result }
        ensures sure { FailsByNumber self.old self.new result }
        ensures room { KeepsRoom self.old self.new }
        ensures ready { (more size : ℕ) → IsReady more size self.old → Stays more size self.new result }
    {
        if self.begins_failing() {
            self.fail_read(file.0);
            return Err(Failed);
        }
        Ok(self.files[file.0 as usize].bytes.len() as u64)
    }

    fn read_at(&mut self, file: FileNo, at: u64, out: &mut [u8]) -> Result<(), Failed>
        requires given { file.0 < (told_by self.old).given }
        requires end { at + length out.old ≤ 2 ^ 62 }
        ensures bytes { OnOk result (IsTrue (told_by self.old).tells → out.new ≡ reading ((told_by self.old).seen file.0) at (length out.old)) }
        ensures run { Runs (reads_of file.0) (told_by self.old) (told_by self.new) }
        ensures quiet { OnOk result (IsQuiet (told_by self.old) (told_by self.new)) }
        ensures cause { ReadCause (told_by self.old) (told_by self.new) file.0 result }
        ensures counted { IsCounted self.old self.new result }
        ensures sure { FailsByNumber self.old self.new result }
        ensures room { KeepsRoom self.old self.new }
        ensures ready { (more size : ℕ) → IsReady more size self.old → Stays more size self.new result }
    {
        if self.begins_failing() {
            self.fail_read(file.0);
            return Err(Failed);
        }
        read(&self.files[file.0 as usize].bytes, at, out);
        Ok(())
    }

    fn write_at(&mut self, file: FileNo, at: u64, bytes: &[u8]) -> Result<(), Failed>
        requires given { file.0 < (told_by self.old).given }
        requires end { at + length bytes.now ≤ 2 ^ 62 }
        ensures call { Writes file.0 at bytes.now (told_by self.old) (told_by self.new) }
        ensures done { OnOk result (HasWritten file.0 at bytes.now (told_by self.old) (told_by self.new)) }
        ensures quiet { OnOk result (IsQuiet (told_by self.old) (told_by self.new)) }
        ensures cause { WriteCause (told_by self.old) (told_by self.new) file.0 result }
        ensures counted { IsCounted self.old self.new result }
        ensures sure { (more size : ℕ) → HasRoom more size (room self.old) → (told_by self.old).outcomes ≡ false → at + length bytes.now ≤ size → FailsByNumber self.old self.new result }
        ensures room { KeepsRoom self.old self.new }
        ensures ready { (more size : ℕ) → IsReady more size self.old → at + length bytes.now ≤ size → Stays more size self.new result }
    {
        if self.begins_failing() {
            self.fail_write(file.0);
            return Err(Failed);
        }
        match self.overwrite(file.0, at, bytes) {
            Ok(()) => Ok(()),
            Err(_) => {
                self.fail_write(file.0);
                Err(Failed)
            }
        }
    }

    fn sync(&mut self, file: FileNo) -> Result<(), Failed>
        requires { file.0 < (told_by self.old).given }
        ensures call { Syncs file.0 (told_by self.old) (told_by self.new) }
        ensures done { OnOk result (HasSynced file.0 (told_by self.old) (told_by self.new)) }
        ensures failed { OnErr result (versions (told_by self.new) file.0 ≡ versions (told_by self.old) file.0) }
        ensures quiet { OnOk result (IsQuiet (told_by self.old) (told_by self.new)) }
        ensures cause { WriteCause (told_by self.old) (told_by self.new) file.0 result }
        ensures counted { IsCounted self.old self.new result }
        ensures sure { (told_by self.old).outcomes ≡ false → FailsByNumber self.old self.new result }
        ensures room { KeepsRoom self.old self.new }
        ensures ready { (more size : ℕ) → IsReady more size self.old → Stays more size self.new result }
    {
        if self.begins_failing() {
            self.fail_write(file.0);
            return Err(Failed);
        }
        match self.note_sync(file.0) {
            Ok(()) => Ok(()),
            Err(_) => {
                self.fail_write(file.0);
                Err(Failed)
            }
        }
    }
}

impl Console for MemoryHost {
    ghost use Rattle.disk_memory.specs.Host.{told_by, room, IsCounted, FailsByNumber, IsReady, Stays, KeepsRoom};
    ghost use Rattle.disk_memory.specs.Room.{HasRoom};
    ghost use Rattle.disk_model.specs.World.{Runs, only_text, PrintCause, IsQuiet, PrintsPart};

    fn print(&mut self, text: &[u8]) -> Result<(), Failed>
        ensures printed { OnOk result (IsTrue (told_by self.old).prints → (told_by self.new).printed ≡ (told_by self.old).printed ++ text.now) }
        ensures part { PrintsPart text.now (told_by self.old) (told_by self.new) }
        ensures run { Runs only_text (told_by self.old) (told_by self.new) }
        ensures quiet { OnOk result (IsQuiet (told_by self.old) (told_by self.new)) }
        ensures cause { PrintCause (told_by self.old) (told_by self.new) result }
        ensures counted { IsCounted self.old self.new result }
        ensures sure { (more size : ℕ) → HasRoom more size (room self.old) → length (told_by self.old).printed + length text.now ≤ size → FailsByNumber self.old self.new result }
        ensures room { KeepsRoom self.old self.new }
        ensures ready { (more size : ℕ) → IsReady more size self.old → length (told_by self.old).printed + length text.now ≤ size → Stays more size self.new result }
    {
        if self.begins_failing() {
            self.fail_print();
            return Err(Failed);
        }
        match self.put_out(text) {
            Ok(()) => Ok(()),
            Err(_) => {
                self.fail_print();
                Err(Failed)
            }
        }
    }
}
