// Arcs within the bounds: what is asked of an arc holds of them, so that points and verdicts need
// no test of it.
ghost use Rattle.std.specs.Prelude.{◌≡◌, ◌≤◌, ◌<◌, MatchOption};
ghost use Rattle.expansion.specs.Reached.Search.{regular, fine};
ghost use Rattle.segment.specs.Search.{verdict};
ghost use Rattle.parabola.specs.Parabola.{InRange, covering};
ghost use Rattle.arc.specs.Arc.{parabola, point};

use crate::{Arc, Point, refuse};
use segment::Verdict;

const LARGEST_COUNT: u64 = 1048576;

#[derive(Clone, Copy)]
pub struct Within {
    pub arc: Arc,
    pub ghost in_range: { InRange (parabola arc) },
}

impl Arc {
    // Whether its highest hard value is below the modulus, so that its window fits a word, and
    // nothing refuses its numbers.
    pub fn within(self) -> Option<Within>
        ensures { MatchOption result (InRange (parabola self) → ⊥) (λ within. within.arc ≡ self) }
    {
        if self.modulus <= self.highest {
            return None;
        }
        let refused = refuse(
            self.modulus,
            self.value,
            self.slope,
            self.curve,
            self.count,
            self.highest + 1,
        );
        match refused {
            Ok(()) => Some(Within { arc: self }),
            Err(_) => None,
        }
    }
}

impl Within {
    // None where x is beyond every count, above 2^20. An arc has the other points, those beyond its
    // last argument too.
    pub fn point_at(self, x: u64) -> Option<Point>
        ensures { MatchOption result (1048576 < x)
            (λ p. (x ≤ 1048576) × (p ≡ point (parabola self.arc) x)) }
    {
        if LARGEST_COUNT < x {
            return None;
        }
        Some(self.point(x))
    }

    pub(crate) fn point(self, x: u64) -> Point
        requires { x ≤ 1048576 }
        ensures { result ≡ point (parabola self.arc) x }
    {
        Point {
            value: self.value_at(x),
            slope: self.slope_at(x),
        }
    }

    // Whether the regular search clears the covering segment.
    pub fn regular_verdict(self) -> Verdict
        ensures { result ≡ verdict regular (covering (parabola self.arc)) }
    {
        segment::regular_verdict(self.cover())
    }

    // The same by the fine search, which refuses no covering segment. Two methods: each asks one call
    // of `segment`, and those two differ.
    pub fn fine_verdict(self) -> Verdict
        ensures { result ≡ verdict fine (covering (parabola self.arc)) }
    {
        match segment::fine_search(self.cover()) {
            Ok(shown) => shown.verdict,
            Err(_) => Verdict::Possible,
        }
    }
}
