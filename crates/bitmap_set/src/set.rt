//! The bitmaps of a disk.

ghost use Rattle.std.specs.Prelude.{◌≡◌, ◌≢◌, ◌+◌, ◌≤◌, [], Err, IfOk, Some, unwrap_or, option_map};
ghost use Rattle.bitmap_model.specs.Bitmap.{when_cleared, when_enabled, when_disabled, when_frozen, when_abdicated, when_reclaimed, base_at};
ghost use Rattle.bitmap_model.specs.Bitmaps.{named, changed, after_add, after_restore, after_remove, after_change, after_merging, after_write};
ghost use Rattle.bitmap_set.specs.Sets.{IsSoundSet};
ghost use Rattle.bitmap_set.specs.Answers.{Follows, IsBusyIn};

use crate::bitmaps::{Bitmap, StoredBitmap};
use crate::lookup::{
    MOST, admit, copy_all, free_place, merge_at, place_of, usable_place, write_all,
};
use crate::refusals::BitmapRefusal;
use span_algebra::{Base, Name, Point, base_of};
use std::alloc::{AllocError, Global};
use std::marker::Model;

/// Want of memory.
pub type Memory = AllocError;

/// The bitmaps of a disk, in order of adding.
#[derive(Debug, Drop)]
pub struct BitmapSet {
    size: u64,
    granularity: u64,
    bitmaps: Vec<Bitmap>,
}

impl Model for BitmapSet {
    ghost use Rattle.std.specs.Prelude.{◌≤◌, vec_capacity};
    ghost use Rattle.bitmap_set.specs.Sets.{SetState, IsSoundSet};

    ghost Value = { SetState };

    ghost view = { λ s. record { size = s.size; granularity = s.granularity; bitmaps = s.bitmaps.items } };

    ghost invariant = { λ s. IsSoundSet (record {
      size = s.size;
      granularity = s.granularity;
      bitmaps = s.bitmaps.items;
    }) × (64 ≤ vec_capacity s.bitmaps) };
}

impl BitmapSet {
    /// No bitmap yet, of a disk of `size` bytes. `granularity` is that of a bitmap that is added without one.
    pub fn new(alloc: Global, size: u64, granularity: u64) -> Result<BitmapSet, Memory>
        ensures { IfOk result (λ s. s ≡ record { size = size; granularity = granularity; bitmaps = [] }) }
    {
        Ok(BitmapSet {
            size,
            granularity,
            bitmaps: Vec::with_capacity(alloc, MOST)?,
        })
    }

    /// Adds an empty bitmap at `p`. Without a granularity it has the one that [`BitmapSet::new`] was given. Refused
    /// are, in this order, a name without the form, a name that is there, a 65th bitmap, a granularity that is no
    /// power of two from 512 to 2^31, and more than 2^27 granules; `Memory` may come in place of any answer.
    pub fn add(
        &mut self,
        alloc: Global,
        name: &Name,
        granularity: Option<u64>,
        recording: bool,
        persistent: bool,
        p: Point,
    ) -> Result<(), BitmapRefusal>
        ensures { Follows (after_add self.old.size name.now (unwrap_or granularity self.old.granularity)
            recording persistent p self.old.bitmaps) result self.old self.new }
    {
        admit(self.bitmaps.as_slice(), name)?;
        let granularity = granularity.unwrap_or(self.granularity);
        let bitmap = Bitmap::new(
            alloc,
            self.size,
            name,
            granularity,
            recording,
            persistent,
            p,
        )?;
        self.bitmaps.push_reserved(bitmap);
        Ok(())
    }

    /// Adds what an image has of a bitmap, by the rules of [`BitmapSet::add`]. One that can't be trusted becomes an
    /// inconsistent bitmap: without granules, of an unknown span, and not recording.
    pub fn restore_entry(&mut self, entry: StoredBitmap) -> Result<(), BitmapRefusal>
        requires { entry.bits.size ≡ self.old.size }
        ensures step { Follows (after_restore entry self.old.bitmaps) result self.old self.new }
        ensures memory { result ≢ Err BitmapRefusal.Memory }
    {
        admit(self.bitmaps.as_slice(), &entry.name)?;
        self.bitmaps.push_reserved(Bitmap::restore(entry));
        Ok(())
    }

    /// Takes a bitmap away. Refused are a name that isn't there, and then a bitmap that a job uses.
    pub fn remove(&mut self, name: &Name) -> Result<(), BitmapRefusal>
        ensures step { Follows (after_remove name.now self.old.bitmaps) result self.old self.new }
        ensures memory { result ≢ Err BitmapRefusal.Memory }
    {
        let place = free_place(self.bitmaps.as_slice(), name)?;
        let _removed = self.bitmaps.remove(place);
        Ok(())
    }

    /// Takes each granule out of a bitmap, at `p`. Refused are, in this order, a name that isn't there, a bitmap that
    /// a job uses, and one that is inconsistent.
    pub fn clear(&mut self, name: &Name, p: Point) -> Result<(), BitmapRefusal>
        ensures step { Follows (after_change (when_cleared p) name.now self.old.bitmaps) result self.old self.new }
        ensures memory { result ≢ Err BitmapRefusal.Memory }
    {
        let place = usable_place(self.bitmaps.as_slice(), name)?;
        let bitmap = &mut self.bitmaps[place];
        bitmap.clear(p);
        Ok(())
    }

    /// Lets a bitmap record from `p` on; one that does is left as it is. Refused as [`BitmapSet::clear`].
    pub fn enable(&mut self, name: &Name, p: Point) -> Result<(), BitmapRefusal>
        ensures step { Follows (after_change (when_enabled p) name.now self.old.bitmaps) result self.old self.new }
        ensures memory { result ≢ Err BitmapRefusal.Memory }
    {
        let place = usable_place(self.bitmaps.as_slice(), name)?;
        let bitmap = &mut self.bitmaps[place];
        bitmap.enable(p);
        Ok(())
    }

    /// Lets a bitmap record no more from `p` on; one that doesn't is left as it is. Refused as [`BitmapSet::clear`].
    pub fn disable(&mut self, name: &Name, p: Point) -> Result<(), BitmapRefusal>
        ensures step { Follows (after_change (when_disabled p) name.now self.old.bitmaps) result self.old self.new }
        ensures memory { result ≢ Err BitmapRefusal.Memory }
    {
        let place = usable_place(self.bitmaps.as_slice(), name)?;
        let bitmap = &mut self.bitmaps[place];
        bitmap.disable(p);
        Ok(())
    }

    /// Joins the granules of `source` to those of `target` at `p`, whatever the two granularities, and their spans
    /// where they meet. Refused as [`BitmapSet::clear`], first by the target and then by the source.
    pub fn merge(&mut self, target: &Name, source: &Name, p: Point) -> Result<(), BitmapRefusal>
        ensures step { Follows (after_merging target.now source.now p self.old.bitmaps) result self.old self.new }
        ensures memory { result ≢ Err BitmapRefusal.Memory }
    {
        let to = usable_place(self.bitmaps.as_slice(), target)?;
        let from = usable_place(self.bitmaps.as_slice(), source)?;
        merge_at(self.bitmaps.as_mut_slice(), to, from, p);
        Ok(())
    }

    /// Lets a job use a bitmap from `p` on, and says what a backup of it builds on. An empty successor records in the
    /// bitmap's place until [`BitmapSet::abdicate`] or [`BitmapSet::reclaim`]. Refused as [`BitmapSet::clear`];
    /// `Memory` may come in place of any answer.
    pub fn freeze(&mut self, alloc: Global, name: &Name, p: Point) -> Result<Base, BitmapRefusal>
        ensures step { Follows (after_change when_frozen name.now self.old.bitmaps) result self.old self.new }
        ensures base { IfOk result (λ base. option_map (base_at p) (named name.now self.old.bitmaps) ≡ Some base) }
    {
        let place = usable_place(self.bitmaps.as_slice(), name)?;
        let bitmap = &mut self.bitmaps[place];
        let successor = bitmap.empty_bits(alloc).map_err(|_| BitmapRefusal::Memory)?;
        let base = base_of(bitmap.span, p);
        bitmap.freeze(successor);
        Ok(base)
    }

    /// Ends a job's use of a bitmap: the successor takes its granules' place, and the span begins at the job's point
    /// `p`.
    pub fn abdicate(&mut self, name: &Name, p: Point)
        requires { IsBusyIn self.old.bitmaps name.now }
        ensures { self.new ≡ record self.old { bitmaps = changed (when_abdicated p) name.now self.old.bitmaps } }
    {
        let place = place_of(self.bitmaps.as_slice(), name).unwrap();
        let bitmap = &mut self.bitmaps[place];
        bitmap.abdicate(p);
    }

    /// Ends a job's use of a bitmap: the successor's granules join its own, and the span stays.
    pub fn reclaim(&mut self, name: &Name)
        requires { IsBusyIn self.old.bitmaps name.now }
        ensures { self.new ≡ record self.old { bitmaps = changed when_reclaimed name.now self.old.bitmaps } }
    {
        let place = place_of(self.bitmaps.as_slice(), name).unwrap();
        let bitmap = &mut self.bitmaps[place];
        bitmap.reclaim();
    }

    /// Marks a write of `length` bytes at byte `at`, which lies on the disk, in each bitmap that is recording: in its
    /// successor while a job uses it.
    pub fn mark(&mut self, at: u64, length: u64)
        requires { at + length ≤ self.old.size }
        ensures { self.new ≡ record self.old {
          bitmaps = after_write (record { at = at; size = length }) self.old.bitmaps;
        } }
    {
        write_all(self.bitmaps.as_mut_slice(), at, length);
    }

    /// The bitmaps, in order of adding.
    pub fn list(&self) -> &[Bitmap]
        ensures bitmaps { result.now ≡ self.now.bitmaps }
        ensures sound { IsSoundSet self.now }
    {
        self.bitmaps.as_slice()
    }

    /// The size of the disk in bytes.
    pub fn size(&self) -> u64
        ensures { result ≡ self.now.size }
    {
        self.size
    }

    /// The same bitmaps once more.
    pub fn copy(&self, alloc: Global) -> Result<BitmapSet, Memory>
        ensures { IfOk result (λ s. s ≡ self.now) }
    {
        Ok(BitmapSet {
            size: self.size,
            granularity: self.granularity,
            bitmaps: copy_all(alloc, self.bitmaps.as_slice())?,
        })
    }
}
