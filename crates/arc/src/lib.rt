// Arcs: the parabola V(x) = (value + slope·x + curve·x(x-1)/2) mod modulus over the arguments x
// below count, in machine numbers. Its values and slopes, and whether a search of the segment that
// covers it clears it. An argument of an arc is hard where V(x) is at most `highest`, on one side.
// A domain and its parts are searched as arcs that are raised, so that this test is of both sides;
// a segment is an arc without a curve.
#![tactic(auto)]

ghost use Rattle.std.specs.Prelude.{◌≡◌};
ghost use Rattle.numbers.specs.Refusals.{tested};
ghost use Rattle.expansion.specs.Reached.Search.{regular, fine};
ghost use Rattle.arc.specs.Arc.{asked, refusal, point_answer, arc_verdict};

mod covering;
mod values;
mod within;

use numbers::{Refusal, magnitude};
use segment::{Segment, Verdict};
pub use within::Within;

// `highest` is the highest hard value, one less than the window.
#[derive(Clone, Copy, Debug, PartialEq, Eq)]
pub struct Arc {
    pub modulus: u64,
    pub value: u64,
    pub slope: u64,
    pub curve: i64,
    pub count: u64,
    pub highest: u64,
}

// V(x) and the slope there, V(x + 1) - V(x).
#[derive(Clone, Copy, Debug, PartialEq, Eq)]
pub struct Point {
    pub value: u64,
    pub slope: u64,
}

// Of a curve, without its sign.
const LARGEST_CURVE: u64 = 1048576;

// The first condition that does not hold: those of the segment with the slope for its step and the
// value for its start, then a curve from -1,048,576 to 1,048,576.
// It takes no arc, since a window of 0 is refused here, and no highest hard value says that.
pub fn refuse(
    modulus: u64,
    value: u64,
    slope: u64,
    curve: i64,
    count: u64,
    window: u64,
) -> Result<(), Refusal>
    ensures { result ≡ tested (refusal (asked modulus value slope curve count window)) }
{
    segment::refuse(Segment {
        modulus,
        step: slope,
        start: value,
        count,
        window,
    })?;
    if LARGEST_CURVE < magnitude(curve) {
        return Err(Refusal::Curve);
    }
    Ok(())
}

// None where x is not an argument of an arc within the bounds.
pub fn point_at(arc: Arc, x: u64) -> Option<Point>
    ensures { result ≡ point_answer arc x }
{
    let within = arc.within()?;
    if arc.count <= x {
        return None;
    }
    Some(within.point(x))
}

// Whether the regular search clears the covering segment: then V(x) is above the highest hard value
// at every argument. An arc outside the bounds is never cleared.
pub fn regular_verdict(arc: Arc) -> Verdict
    ensures { result ≡ arc_verdict regular arc }
{
    match arc.within() {
        Some(within) => within.regular_verdict(),
        None => Verdict::Possible,
    }
}

// The same by the fine search. Two calls and no generic one, as docs/STATEMENTS.md names them: they
// differ by one call over `within`.
pub fn fine_verdict(arc: Arc) -> Verdict
    ensures { result ≡ arc_verdict fine arc }
{
    match arc.within() {
        Some(within) => within.fine_verdict(),
        None => Verdict::Possible,
    }
}
