//! One bitmap, and what each change makes of it.

ghost use Rattle.std.specs.Prelude.{◌≡◌, ◌+◌, ◌≤◌, IsTrue, IfOk, IfErr, IfSome, OnOk, Some, None};
ghost use Rattle.bitmap_model.specs.Granules.{IsShaped, none_of, cleared};
ghost use Rattle.bitmap_model.specs.Bitmap.{IsShapedBitmap, is_busy, new_bitmap, when_written, when_cleared, when_enabled, when_disabled, when_merged, when_frozen, when_abdicated, when_reclaimed, restored};
ghost use Rattle.bitmap_model.specs.Bitmaps.{is_named};
ghost use Rattle.bitmap_set.specs.Answers.{fault_said};
ghost use Rattle.bitmap_set.specs.Places.{bits_fault};

use crate::names::copy_name;
use crate::refusals::BitmapRefusal;
use bits_granular::{BitsRefusal, GranularBits};
use span_algebra::{Name, Point, Span, after_clear, after_disable, after_enable, after_merge};
use std::alloc::{AllocError, Global};
use std::marker::Model;

/// A bitmap of a disk. Contracts see it as the model's state of a bitmap, in which these fields stand by the same
/// names; there a bitmap is busy where it has a successor.
#[derive(Debug, Drop)]
pub struct Bitmap {
    /// 1 to 1,023 bytes.
    pub name: Name,
    /// The granules that are dirty; while a job uses the bitmap, those that were as it began.
    pub bits: GranularBits,
    /// While a job uses the bitmap, the granules that became dirty since.
    pub successor: Option<GranularBits>,
    /// From when to when the bitmap and its successor have all that was written.
    pub span: Span,
    /// Whether writes are marked.
    pub recording: bool,
    /// Whether it is kept in the image.
    pub persistent: bool,
    /// Whether a job uses it.
    pub busy: bool,
    /// Whether the image didn't say that it can be trusted.
    pub inconsistent: bool,
}

impl Model for Bitmap {
    ghost use Rattle.std.specs.Prelude.{◌≡◌, is_some};
    ghost use Rattle.bitmap_model.specs.Bitmap.{BitmapState};

    ghost Value = { BitmapState };

    ghost view = { λ b. record {
      name = b.name;
      bits = b.bits;
      successor = b.successor;
      span = b.span;
      recording = b.recording;
      persistent = b.persistent;
      inconsistent = b.inconsistent;
    } };

    ghost invariant = { λ b. b.busy ≡ is_some b.successor };
}

/// What an image has of a bitmap.
#[derive(Debug, Drop)]
pub struct StoredBitmap {
    pub name: Name,
    pub bits: GranularBits,
    pub span: Span,
    pub recording: bool,
    /// Whether the image says that the bits and the span hold.
    pub trusted: bool,
}

impl Model for StoredBitmap {
    ghost use Rattle.bitmap_model.specs.Bitmap as model;

    ghost Value = { model.StoredBitmap };

    ghost view = { λ e. record {
      name = e.name;
      bits = e.bits;
      span = e.span;
      recording = e.recording;
      trusted = e.trusted;
    } };
}

// The set of no granule. Besides the refusals of a granularity there may be no memory.
fn no_granules(alloc: Global, size: u64, granularity: u64) -> Result<GranularBits, BitmapRefusal>
    ensures ok { IfOk result (λ bits. bits ≡ none_of size granularity) }
    ensures lawful { OnOk result (bits_fault size granularity ≡ None) }
    ensures err { IfErr result (λ e. IfSome (fault_said e) (λ fault. bits_fault size granularity ≡ Some fault)) }
{
    match GranularBits::new(alloc, size, granularity) {
        Ok(bits) => Ok(bits),
        Err(BitsRefusal::BadGranularity) => Err(BitmapRefusal::BadGranularity),
        Err(BitsRefusal::TooFine) => Err(BitmapRefusal::TooFine),
        Err(_) => Err(BitmapRefusal::Memory),
    }
}

impl Bitmap {
    /// An empty bitmap that is added at `p`. Besides the refusals of its granularity there may be no memory.
    pub(crate) fn new(
        alloc: Global,
        size: u64,
        name: &Name,
        granularity: u64,
        recording: bool,
        persistent: bool,
        p: Point,
    ) -> Result<Bitmap, BitmapRefusal>
        ensures ok { IfOk result (λ b. b ≡ new_bitmap size name.now granularity recording persistent p) }
        ensures lawful { OnOk result (bits_fault size granularity ≡ None) }
        ensures err { IfErr result (λ e. IfSome (fault_said e) (λ fault. bits_fault size granularity ≡ Some fault)) }
    {
        let bits = no_granules(alloc, size, granularity)?;
        let name = copy_name(alloc, name).map_err(|_| BitmapRefusal::Memory)?;
        Ok(Bitmap {
            name,
            bits,
            successor: None,
            span: after_clear(recording, p),
            recording,
            persistent,
            busy: false,
            inconsistent: false,
        })
    }

    /// Whether it has this name.
    pub(crate) fn is_named(&self, name: &Name) -> bool
        ensures { result ≡ is_named name.now self.now }
    {
        name.is(&self.name)
    }

    /// Marks the granules that a write of `length` bytes at byte `at` meets: of the successor while there is one, and
    /// none where the bitmap isn't recording.
    #[tactic(auto, unfolding(bitmap_model::specs::Bitmap::when_written))]
    pub(crate) fn write(&mut self, at: u64, length: u64)
        requires within { at + length ≤ self.old.bits.size }
        requires shape { IsShapedBitmap self.old.bits.size self.old }
        ensures { self.new ≡ when_written (record { at = at; size = length }) self.old }
    {
        if !self.recording {
            return;
        }
        match &mut self.successor {
            Some(successor) => successor.mark(at, length),
            None => self.bits.mark(at, length),
        }
    }

    /// Takes each granule out, at `p`.
    pub(crate) fn clear(&mut self, p: Point)
        ensures { self.new ≡ when_cleared p self.old }
    {
        self.bits.clear_all();
        self.span = after_clear(self.recording, p);
    }

    /// Lets it record from `p` on.
    pub(crate) fn enable(&mut self, p: Point)
        ensures { self.new ≡ when_enabled p self.old }
    {
        if !self.recording {
            self.recording = true;
            self.span = after_enable(self.span, p);
        }
    }

    /// Lets it record no more from `p` on.
    pub(crate) fn disable(&mut self, p: Point)
        ensures { self.new ≡ when_disabled p self.old }
    {
        if self.recording {
            self.recording = false;
            self.span = after_disable(self.span, p);
        }
    }

    /// Joins another bitmap's granules to its own at `p`.
    pub(crate) fn merge(&mut self, source: &Bitmap, p: Point)
        requires { source.now.bits.size ≡ self.old.bits.size }
        ensures { self.new ≡ when_merged source.now p self.old }
    {
        self.bits.merge_from(&source.bits);
        self.span = after_merge(self.span, source.span, p);
    }

    /// Joins its own granules to themselves at `p`, which leaves them as they are.
    #[tactic(auto, using(crate::proofs::Granules::merged_itself))]
    pub(crate) fn merge_itself(&mut self, p: Point)
        requires { IsShapedBitmap self.old.bits.size self.old }
        ensures { self.new ≡ when_merged self.old p self.old }
    {
        self.span = after_merge(self.span, self.span, p);
    }

    /// Its granules without any of them.
    pub(crate) fn empty_bits(&self, alloc: Global) -> Result<GranularBits, AllocError>
        ensures { IfOk result (λ bits. bits ≡ cleared self.now.bits) }
    {
        let mut bits = self.bits.copy(alloc)?;
        bits.clear_all();
        Ok(bits)
    }

    /// Lets a successor that has no granule record from now on.
    pub(crate) fn freeze(&mut self, successor: GranularBits)
        requires { successor ≡ cleared self.old.bits }
        ensures { self.new ≡ when_frozen self.old }
    {
        self.successor = Some(successor);
        self.busy = true;
    }

    /// Puts the successor's granules in the place of its own, with a span from `p`.
    pub(crate) fn abdicate(&mut self, p: Point)
        ensures { self.new ≡ when_abdicated p self.old }
    {
        if let Some(successor) = self.successor.take() {
            self.bits = successor;
        }
        self.busy = false;
        self.span = after_clear(self.recording, p);
    }

    /// Joins the successor's granules to its own.
    pub(crate) fn reclaim(&mut self)
        requires busy { IsTrue (is_busy self.old) }
        requires shape { IsShapedBitmap self.old.bits.size self.old }
        ensures { self.new ≡ when_reclaimed self.old }
    {
        if let Some(successor) = self.successor.take() {
            self.bits.merge_from(&successor);
        }
        self.busy = false;
    }

    /// What an opening makes of a stored bitmap: one that can't be trusted has a name and a granularity alone.
    pub(crate) fn restore(entry: StoredBitmap) -> Bitmap
        ensures restored { result ≡ restored entry }
        ensures shape { IsShaped entry.bits }
    {
        let StoredBitmap {
            name,
            mut bits,
            span,
            recording,
            trusted,
        } = entry;
        let _size = bits.size(); // so that the granules are known to be in shape
        if !trusted {
            bits.clear_all();
        }
        Bitmap {
            name,
            bits,
            successor: None,
            span: if trusted { span } else { Span::Unknown },
            recording: trusted && recording,
            persistent: true,
            busy: false,
            inconsistent: !trusted,
        }
    }

    /// The same bitmap once more.
    pub(crate) fn copy(&self, alloc: Global) -> Result<Bitmap, AllocError>
        ensures { IfOk result (λ copy. copy ≡ self.now) }
    {
        Ok(Bitmap {
            name: copy_name(alloc, &self.name)?,
            bits: self.bits.copy(alloc)?,
            successor: copy_successor(alloc, &self.successor)?,
            span: self.span,
            recording: self.recording,
            persistent: self.persistent,
            busy: self.busy,
            inconsistent: self.inconsistent,
        })
    }
}

// A successor once more, where there is one.
fn copy_successor(
    alloc: Global,
    successor: &Option<GranularBits>,
) -> Result<Option<GranularBits>, AllocError>
    ensures { IfOk result (λ copy. copy ≡ successor.now) }
{
    match successor {
        Some(bits) => Ok(Some(bits.copy(alloc)?)),
        None => Ok(None),
    }
}
