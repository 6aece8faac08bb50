//! What a crash may leave of a file, by a choice.

ghost use Rattle.std.specs.Prelude.{◌≡◌, ◌≢◌, ◌⊎◌, ◌*◌, ◌<◌, ◌≤◌, ℕ, List, [], ◌∷◌, length, map, true, false, option_map, IfOk, OnOk};
ghost use Rattle.disk_model.specs.Files.{byte, after_write, after_sync};
ghost use Rattle.disk_memory.specs.Held.{change_of, step, replay};
ghost use Rattle.disk_memory.specs.Outcomes.{SameSector, IsMixture, IsDrafted, IsPick, IsPicked};

use crate::draft::Draft;
use crate::files::{lengthen, make_room, put_over, write_over};
use crate::log::Call;
use std::alloc::{AllocError, Global};

const SECTOR: usize = 512;

// A number that looks random.
fn scrambled(choice: u64, step: u64, place: u64) -> u64 {
    let mut word = choice.wrapping_mul(0x9e37_79b9_7f4a_7c15);
    word ^= step.wrapping_mul(0xbf58_476d_1ce4_e5b9);
    word ^= place.wrapping_mul(0x94d0_49bb_1331_11eb);
    word = (word ^ (word >> 30)).wrapping_mul(0xbf58_476d_1ce4_e5b9);
    word = (word ^ (word >> 27)).wrapping_mul(0x94d0_49bb_1331_11eb);
    word ^ (word >> 31)
}

// Whether a sector gets its new bytes.
fn takes(choice: u64, step: u64, sector: u64) -> bool
    ensures none { choice ≡ 0 → result ≡ false }
    ensures all { choice ≡ 1 → result ≡ true }
{
    if choice < 2 {
        return choice == 1;
    }
    scrambled(choice, step, sector) % 2 == 1
}

// A length between these.
fn length_between(choice: u64, file: u32, shortest: usize, longest: usize) -> usize
    requires { shortest ≤ longest }
    ensures low { shortest ≤ result }
    ensures high { result ≤ longest }
    ensures none { choice ≡ 0 → result ≡ shortest }
    ensures all { choice ≡ 1 → result ≡ longest }
{
    if choice == 0 {
        return shortest;
    }
    if choice == 1 {
        return longest;
    }
    let word = scrambled(choice, u64::MAX, u64::from(file)) as usize;
    match word % 4 {
        0 => shortest,
        1 => shortest + word / 4 % (longest - shortest).max(1),
        _ => longest,
    }
}

// Copies one sector.
#[tactic(auto, using(crate::proofs::Mixtures::copied_here, crate::proofs::Mixtures::copied_elsewhere))]
fn copy_sector(mixed: &mut [u8], now: &[u8], sector: usize)
    requires long { length now.now ≡ length mixed.old }
    requires inside { 512 * sector ≤ length mixed.old }
    ensures long { length mixed.new ≡ length mixed.old }
    ensures taken { SameSector sector mixed.new now.now }
    ensures others { (k : ℕ) → k ≢ sector → SameSector k mixed.new mixed.old }
{
    let from = SECTOR * sector;
    let to = now.len().min(from + SECTOR);
    put_over(mixed, from, &now[from..to]);
}

// Copies one sector, or not.
fn take_or_leave(mixed: &mut [u8], now: &[u8], sector: usize, choice: u64, step: u64)
    requires long { length now.now ≡ length mixed.old }
    requires inside { 512 * sector ≤ length mixed.old }
    ensures long { length mixed.new ≡ length mixed.old }
    ensures either { SameSector sector mixed.new mixed.old ⊎ SameSector sector mixed.new now.now }
    ensures others { (k : ℕ) → k ≢ sector → SameSector k mixed.new mixed.old }
    ensures none { choice ≡ 0 → mixed.new ≡ mixed.old }
    ensures all { choice ≡ 1 → SameSector sector mixed.new now.now }
{
    if takes(choice, step, sector as u64) {
        copy_sector(mixed, now, sector);
    }
}

// Copies some sectors.
fn mix(mixed: &mut [u8], now: &[u8], choice: u64, step: u64)
    requires { length now.now ≡ length mixed.old }
    ensures sectors { (k : ℕ) → SameSector k mixed.new mixed.old ⊎ SameSector k mixed.new now.now }
    ensures none { choice ≡ 0 → mixed.new ≡ mixed.old }
    ensures all { choice ≡ 1 → mixed.new ≡ now.now }
{
    for sector in 0..now.len() / SECTOR + 1 {
        take_or_leave(mixed, now, sector, choice, step);
    }
}

// Makes it as long as the file is now, and copies some sectors.
fn remix(mixed: &mut Vec<u8>, now: &Vec<u8>, choice: u64, step: u64) -> Result<(), AllocError>
    requires { length mixed.old.items ≤ length now.now.items }
    ensures long { OnOk result (length mixed.new.items ≡ length now.now.items) }
    ensures sectors { OnOk result ((k : ℕ) → SameSector k mixed.new.items mixed.old.items ⊎ SameSector k mixed.new.items now.now.items) }
    ensures none { OnOk result (choice ≡ 0 → (i : ℕ) → byte mixed.new.items i ≡ byte mixed.old.items i) }
    ensures all { OnOk result (choice ≡ 1 → mixed.new.items ≡ now.now.items) }
{
    make_room(mixed, now.len())?;
    lengthen(mixed, now.len());
    mix(mixed, now, choice, step);
    Ok(())
}

// A file that was put.
fn fresh(alloc: Global, bytes: &[u8]) -> Result<Draft, AllocError>
    ensures { (choice : ℕ) → IfOk result (λ new. IsMixture choice (bytes.now ∷ []) new.now.items new.mixed.items new.shortest) }
{
    Ok(Draft {
        now: bytes.to_vec(alloc)?,
        mixed: bytes.to_vec(alloc)?,
        shortest: bytes.len(),
    })
}

// A file that was synced.
fn settled(alloc: Global, old: Draft) -> Result<Draft, AllocError>
    ensures { (choice : ℕ) → (versions : List (List ℕ)) → IsMixture choice versions old.now.items old.mixed.items old.shortest → IfOk result (λ new. IsMixture choice (after_sync versions) new.now.items new.mixed.items new.shortest) }
{
    let mixed = old.now.to_vec(alloc)?;
    let shortest = old.now.len();
    Ok(Draft {
        now: old.now,
        mixed,
        shortest,
    })
}

// A file that was written.
fn written(old: Draft, at: u64, bytes: &[u8], choice: u64, step: u64) -> Result<Draft, AllocError>
    ensures { (versions : List (List ℕ)) → IsMixture choice versions old.now.items old.mixed.items old.shortest → IfOk result (λ new. IsMixture choice (after_write at bytes.now versions) new.now.items new.mixed.items new.shortest) }
{
    let mut now = old.now;
    let mut mixed = old.mixed;
    make_room(&mut now, (at as usize).saturating_add(bytes.len()))?;
    write_over(&mut now, at as usize, bytes);
    remix(&mut mixed, &now, choice, step)?;
    Ok(Draft {
        now,
        mixed,
        shortest: old.shortest,
    })
}

// The draft after one call more.
fn after(
    alloc: Global,
    draft: Option<Draft>,
    call: &Call,
    file: u32,
    choice: u64,
    turn: u64,
) -> Result<Option<Draft>, AllocError>
    ensures { (versions : List (List ℕ)) → IsDrafted choice versions draft → IfOk result (λ new. IsDrafted choice (step (change_of call.now) file versions) new) }
{
    match call {
        Call::Put(number, bytes) => {
            if *number == file {
                let new = fresh(alloc, bytes)?;
                Ok(Some(new))
            } else {
                Ok(draft)
            }
        }
        Call::Write(number, at, bytes) => {
            if *number == file {
                rewritten(draft, *at, bytes, choice, turn)
            } else {
                Ok(draft)
            }
        }
        Call::Inside => Ok(draft),
        Call::Sync(number) => {
            if *number == file {
                resettled(alloc, draft)
            } else {
                Ok(draft)
            }
        }
    }
}

// The same of a file that may not be there.
fn rewritten(
    draft: Option<Draft>,
    at: u64,
    bytes: &[u8],
    choice: u64,
    turn: u64,
) -> Result<Option<Draft>, AllocError>
    ensures { (versions : List (List ℕ)) → IsDrafted choice versions draft → IfOk result (λ new. IsDrafted choice (after_write at bytes.now versions) new) }
{
    match draft {
        Some(old) => {
            let new = written(old, at, bytes, choice, turn)?;
            Ok(Some(new))
        }
        None => Ok(None),
    }
}

fn resettled(alloc: Global, draft: Option<Draft>) -> Result<Option<Draft>, AllocError>
    ensures { (choice : ℕ) → (versions : List (List ℕ)) → IsDrafted choice versions draft → IfOk result (λ new. IsDrafted choice (after_sync versions) new) }
{
    match draft {
        Some(old) => {
            let new = settled(alloc, old)?;
            Ok(Some(new))
        }
        None => Ok(None),
    }
}

// What a crash after these calls may leave of a file, if it is there then.
pub(crate) fn outcome(
    alloc: Global,
    log: &[Call],
    file: u32,
    choice: u64,
) -> Result<Option<Vec<u8>>, AllocError>
    ensures { IfOk result (λ left. IsPicked choice (replay (map change_of log.now) file []) (option_map (λ bytes. bytes.items) left)) }
{
    let mut draft = None;
    for (turn, call) in log.iter().enumerate() {
        draft = after(alloc, draft, call, file, choice, turn as u64)?;
    }
    match draft {
        Some(found) => Ok(Some(cut(found, file, choice))),
        None => Ok(None),
    }
}

// Cuts the mixture to a length that a crash may leave.
fn cut(draft: Draft, file: u32, choice: u64) -> Vec<u8>
    ensures { (versions : List (List ℕ)) → IsMixture choice versions draft.now.items draft.mixed.items draft.shortest → IsPick choice versions result.items }
{
    let longest = draft.now.len().max(draft.shortest);
    let mut bytes = draft.mixed;
    bytes.truncate(length_between(choice, file, draft.shortest, longest));
    bytes
}
