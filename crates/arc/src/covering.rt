// The segment that covers an arc: it lies above the arc, at most by the spread.
ghost use Rattle.std.specs.Prelude.{◌≡◌};
ghost use Rattle.parabola.specs.Parabola.{spread, covering_start, covering_window};
ghost use Rattle.arc.specs.Arc.{parabola, covering_segment};

use crate::Within;
use numbers::{magnitude, min, reduce};
use segment::Segment;

impl Within {
    pub(crate) fn cover(self) -> Segment
        ensures { result ≡ covering_segment (parabola self.arc) }
    {
        let arc = self.arc;
        Segment {
            modulus: arc.modulus,
            step: reduce(arc.modulus - arc.slope, arc.modulus),
            start: self.covering_start(),
            count: arc.count,
            window: self.covering_window(),
        }
    }

    // A curve that is not negative adds to the values, so that the segment starts above them by all
    // that it may add; a negative one takes from them, so that it starts with them. No branch: the
    // signs of one domain after another may be hard to foresee.
    fn covering_start(self) -> u64
        ensures { result ≡ covering_start (parabola self.arc) }
    {
        let arc = self.arc;
        let rise = self.spread() * (0 <= arc.curve) as u64;
        reduce(arc.value + rise, arc.modulus)
    }

    fn covering_window(self) -> u64
        ensures { result ≡ covering_window (parabola self.arc) }
    {
        let arc = self.arc;
        min(arc.modulus, arc.highest + self.spread() + 1)
    }

    // How far the curve takes a value, at most.
    fn spread(self) -> u64
        ensures { result ≡ spread (parabola self.arc) }
    {
        let arc = self.arc;
        magnitude(arc.curve) * ((arc.count * arc.count - arc.count) / 2)
    }
}
