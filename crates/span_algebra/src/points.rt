//! Points and ends, with their order.

ghost use Rattle.std.specs.Prelude.{◌≡◌, IsTrue};
ghost use Rattle.span_algebra.specs.Points.{point_cmp, precedes, earlier, later_end, closed_by, reaches};

use std::cmp::Ordering;

/// A moment that a command or a transaction drew.
#[derive(Clone, Copy, Debug, PartialEq, Eq)]
pub struct Point {
    pub epoch: u64,
    pub serial: u64,
}

/// Where a span ends: at now, whatever is written yet, or at a point.
#[derive(Clone, Copy, Debug, PartialEq, Eq)]
pub enum End {
    Now,
    At(Point),
}

/// How two points are ordered: by epoch, then by serial.
pub fn order(a: Point, b: Point) -> Ordering
    ensures { result ≡ point_cmp a b }
{
    a.epoch.cmp(&b.epoch).then(a.serial.cmp(&b.serial))
}

/// Whether `p` stands before `q`.
pub(crate) fn is_before(p: Point, q: Point) -> bool
    ensures { result ≡ precedes p q }
{
    order(p, q).is_lt()
}

/// The earlier of two points.
pub(crate) fn earlier_of(p: Point, q: Point) -> Point
    ensures { result ≡ earlier p q }
{
    if is_before(q, p) { q } else { p }
}

/// Whether the end isn't before the point.
pub(crate) fn does_reach(end: End, p: Point) -> bool
    ensures { result ≡ reaches end p }
{
    match end {
        End::Now => true,
        End::At(q) => !is_before(q, p),
    }
}

/// The end, or `p` where that is earlier.
pub(crate) fn cut_at(end: End, p: Point) -> Point
    ensures { result ≡ closed_by end p }
{
    match end {
        End::Now => p,
        End::At(q) => earlier_of(q, p),
    }
}

/// The end, or `p` where that is later.
pub(crate) fn moved_to(end: End, p: Point) -> End
    ensures { result ≡ later_end end (End.At p) }
{
    match end {
        End::Now => End::Now,
        End::At(q) => End::At(if is_before(q, p) { p } else { q }),
    }
}
