//! Bitmaps by their names, and what is done to several of them.

ghost use Rattle.std.specs.Prelude.{◌≡◌, ◌<◌, ◌≤◌, length, None, IfSome, IfNone, IfOk, IfErr, OnOk, slice_set, Some, vec_capacity};
ghost use Rattle.std.specs.List.{slice_get, list_any};
ghost use Rattle.bitmap_model.specs.Bitmap.{BitmapState, when_merged};
ghost use Rattle.bitmap_model.specs.Bitmaps.{is_named, named, use_fault, remove_fault, after_write};
ghost use Rattle.bitmap_set.specs.Places.{IsPlace, IsRefusal, AreShapedFor, name_fault};

use crate::bitmaps::Bitmap;
use crate::names::is_lawful;
use crate::refusals::BitmapRefusal;
use span_algebra::{Name, Point};
use std::alloc::{AllocError, Global};

/// How many bitmaps a disk has at most.
pub(crate) const MOST: usize = 64;

/// The place of the bitmap of this name.
#[tactic(auto, using(crate::proofs::Places::named_at, crate::proofs::Places::named_past))]
pub(crate) fn place_of(bitmaps: &[Bitmap], name: &Name) -> Option<usize>
    ensures found { IfSome result (IsPlace name.now bitmaps.now) }
    ensures none { IfNone result (named name.now bitmaps.now ≡ None) }
{
    for (place, bitmap) in bitmaps.iter().enumerate() {
        if bitmap.is_named(name) {
            return Some(place);
        }
    }
    None
}

/// The place of the bitmap of this name, where no job uses it.
pub(crate) fn free_place(bitmaps: &[Bitmap], name: &Name) -> Result<usize, BitmapRefusal>
    ensures ok { IfOk result (IsPlace name.now bitmaps.now) }
    ensures free { OnOk result (remove_fault (named name.now bitmaps.now) ≡ None) }
    ensures err { IfErr result (IsRefusal (remove_fault (named name.now bitmaps.now))) }
{
    let place = place_of(bitmaps, name).ok_or(BitmapRefusal::NoSuchBitmap)?;
    let bitmap = &bitmaps[place];
    if bitmap.busy {
        return Err(BitmapRefusal::Busy);
    }
    Ok(place)
}

/// The place of the bitmap of this name, where no job uses it and it is consistent.
pub(crate) fn usable_place(bitmaps: &[Bitmap], name: &Name) -> Result<usize, BitmapRefusal>
    ensures ok { IfOk result (IsPlace name.now bitmaps.now) }
    ensures usable { OnOk result (use_fault (named name.now bitmaps.now) ≡ None) }
    ensures err { IfErr result (IsRefusal (use_fault (named name.now bitmaps.now))) }
{
    let place = free_place(bitmaps, name)?;
    let bitmap = &bitmaps[place];
    if bitmap.inconsistent {
        return Err(BitmapRefusal::Inconsistent);
    }
    Ok(place)
}

// Whether one of them has this name.
fn is_taken(bitmaps: &[Bitmap], name: &Name) -> bool
    ensures { result ≡ list_any (is_named name.now) bitmaps.now }
{
    bitmaps.iter().any(|bitmap| bitmap.is_named(name))
}

/// Refuses a name by which no bitmap can be added.
pub(crate) fn admit(bitmaps: &[Bitmap], name: &Name) -> Result<(), BitmapRefusal>
    ensures ok { OnOk result (name_fault name.now bitmaps.now ≡ None) }
    ensures err { IfErr result (IsRefusal (name_fault name.now bitmaps.now)) }
{
    if !is_lawful(name.items.as_slice()) {
        return Err(BitmapRefusal::BadName);
    }
    if is_taken(bitmaps, name) {
        return Err(BitmapRefusal::NameTaken);
    }
    if bitmaps.len() >= MOST {
        return Err(BitmapRefusal::TooMany);
    }
    Ok(())
}

/// Joins the granules of the bitmap at one place to those of the bitmap at another, at `p`.
pub(crate) fn merge_at(bitmaps: &mut [Bitmap], to: usize, from: usize, p: Point)
    requires to { to < length bitmaps.old }
    requires from { from < length bitmaps.old }
    requires shapes { AreShapedFor (record { at = 0; size = 0 }) bitmaps.old }
    ensures { (target source : BitmapState) → slice_get bitmaps.old to ≡ Some target
        → slice_get bitmaps.old from ≡ Some source
        → bitmaps.new ≡ slice_set bitmaps.old to (when_merged source p target) }
{
    if to == from {
        let target = &mut bitmaps[to];
        target.merge_itself(p);
    } else if to < from {
        let (before, after) = bitmaps.split_at_mut(from);
        before[to].merge(&after[0], p);
    } else {
        let (before, after) = bitmaps.split_at_mut(to);
        after[0].merge(&before[from], p);
    }
}

/// Marks a write in each bitmap that is recording.
pub(crate) fn write_all(bitmaps: &mut [Bitmap], at: u64, length: u64)
    requires { AreShapedFor (record { at = at; size = length }) bitmaps.old }
    ensures { bitmaps.new ≡ after_write (record { at = at; size = length }) bitmaps.old }
{
    for bitmap in bitmaps.iter_mut() {
        bitmap.write(at, length);
    }
}

/// The same bitmaps once more, with room for as many as a disk has at most.
pub(crate) fn copy_all(alloc: Global, bitmaps: &[Bitmap]) -> Result<Vec<Bitmap>, AllocError>
    ensures items { IfOk result (λ copies. copies.items ≡ bitmaps.now) }
    ensures room { IfOk result (λ copies. MOST ≤ vec_capacity copies) }
{
    let mut copies = Vec::with_capacity(alloc, MOST)?;
    for bitmap in bitmaps {
        copies.push(bitmap.copy(alloc)?)?;
    }
    Ok(copies)
}
