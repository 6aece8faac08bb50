//! Spans, and how each change of a bitmap moves its span.

ghost use Rattle.std.specs.Prelude.{◌≡◌, IsTrue};
ghost use Rattle.span_algebra.specs.Spans.{after_clear, after_disable, after_enable, after_merge, base_of, spans_meet};

use crate::points::{End, Point, cut_at, does_reach, earlier_of, moved_to};

/// The part of a disk's history whose writes a bitmap covers.
#[derive(Clone, Copy, Debug, PartialEq, Eq)]
pub enum Span {
    Unknown,
    Known { from: Point, to: End },
}

/// What a backup builds on.
#[derive(Clone, Copy, Debug, PartialEq, Eq)]
pub enum Base {
    Whole,
    Since(Point),
    Loose,
}

/// Whether both spans are known and neither ends before the other begins.
pub fn meets(s: Span, t: Span) -> bool
    ensures { result ≡ spans_meet s t }
{
    match (s, t) {
        (Span::Known { from: a, to: b }, Span::Known { from: c, to: d }) => does_reach(b, c)
            && does_reach(d, a),
        _ => false,
    }
}

/// The span of a bitmap that was added or cleared at `p`, or whose successor took its place after a job at `p`.
pub fn after_clear(recording: bool, p: Point) -> Span
    ensures { result ≡ after_clear recording p }
{
    Span::Known {
        from: p,
        to: if recording { End::Now } else { End::At(p) },
    }
}

/// The span of a bitmap that was disabled at `p`.
pub fn after_disable(s: Span, p: Point) -> Span
    ensures { result ≡ after_disable s p }
{
    match s {
        Span::Known { from, to: End::Now } => Span::Known {
            from,
            to: End::At(p),
        },
        _ => s,
    }
}

/// The span of a bitmap that was enabled at `p`.
pub fn after_enable(s: Span, p: Point) -> Span
    ensures { result ≡ after_enable s p }
{
    let from = match s {
        Span::Known {
            from,
            to: End::At(end),
        } if end == p => from,
        _ => p,
    };
    Span::Known { from, to: End::Now }
}

/// The span of a bitmap into which another, with the span `source`, was merged at `p`.
pub fn after_merge(target: Span, source: Span, p: Point) -> Span
    ensures { result ≡ after_merge target source p }
{
    let (Span::Known { from: a, to: b }, Span::Known { from: c, to: d }) = (target, source) else {
        return target;
    };
    let end = cut_at(d, p);
    if b == End::At(a) {
        return Span::Known {
            from: c,
            to: End::At(end),
        };
    }
    if !meets(target, source) {
        return target;
    }
    Span::Known {
        from: earlier_of(a, c),
        to: moved_to(b, end),
    }
}

/// What a backup at `p` of a bitmap with this span builds on.
pub fn base_of(s: Span, p: Point) -> Base
    ensures { result ≡ base_of s p }
{
    match s {
        Span::Known { from, to: End::Now } => Base::Since(from),
        Span::Known {
            from,
            to: End::At(end),
        } if end == p => Base::Since(from),
        _ => Base::Loose,
    }
}
