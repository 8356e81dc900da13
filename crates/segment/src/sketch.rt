// The regular search for its distance alone: a verdict asks for no more. It goes through the same
// rows as state.rt, without the argument. There the argument tells an odd row whether the start
// lies in a long gap, since only long gaps are cut. Here the even row before it tells that: where
// the point below the start has moved past all cuts, the start lies in what is left of a long gap,
// and that is a short gap in the odd row; else it lies in a long one. An even row need not know: in
// a short gap there is no room for a move.
ghost use Rattle.std.specs.Prelude.{◌≡◌, true, cond};
ghost use Rattle.segment.specs.Sketch.{Divisible, from_lowest_cut, next_row};

use crate::Segment;
use crate::state::State;
use crate::walk::Walk;

// What a verdict needs of a state. wide: at an odd row, whether the start lies in a long gap. Once
// done, only the distance has a meaning: it is that of the search. Flags, and no variants of an enum:
// an odd row selects by the one without a branch, and the walk of all searches asks for the other.
#[derive(Clone, Copy)]
pub(crate) struct Sketch {
    pub(crate) long: u64,
    pub(crate) short: u64,
    pub(crate) longs: u64,
    pub(crate) shorts: u64,
    pub(crate) distance: u64,
    pub(crate) wide: bool,
    pub(crate) done: bool,
}

// The regular search, sketch by sketch.
pub(crate) struct DistanceWalk;

impl Walk for DistanceWalk {
    ghost use Rattle.segment.specs.Sketch.{Divisible, sketch_walk};

    type State = Sketch;

    ghost walk = { sketch_walk };

    ghost CanGoOn = { Divisible };

    fn first(segment: Segment) -> Sketch {
        // Field by field: a sketch is a state without its argument, and not one inside it.
        let state = State::first(segment);
        Sketch {
            long: state.long,
            short: state.short,
            longs: state.longs,
            shorts: state.shorts,
            distance: state.distance,
            wide: true,
            done: state.done,
        }
    }

    fn is_done(sketch: Sketch) -> bool {
        sketch.done
    }

    // An even row, cut from the left. Not one function with the odd row: all that they share is
    // `next_row`. The lengths are divided before the distance: the next row waits for them.
    fn even_row(sketch: Sketch, count: u64) -> Sketch {
        let cuts = sketch.long / sketch.short;
        let moves = sketch.distance / sketch.short;
        let moved = sketch.distance % sketch.short;
        Sketch {
            distance: moved,
            wide: moves != cuts,
            ..sketch.next_row(count)
        }
    }

    // An odd row, cut from the right. What is left of the distance is selected after the division,
    // as in state.rt.
    fn odd_row(sketch: Sketch, count: u64) -> Sketch {
        let next = sketch.next_row(count);
        let moved = from_lowest_cut(sketch.distance, next.short) % sketch.short;
        Sketch {
            distance: select(sketch.wide, moved, sketch.distance),
            ..next
        }
    }
}

impl Sketch {
    // The next row, with the distance as it was, and wide until an even row tells. This row is the
    // last where nothing is left of the long gaps, or where its cuts make at least as many points
    // as the count.
    fn next_row(self, count: u64) -> Sketch
        requires { Divisible count self }
        ensures { result ≡ next_row count self self.distance true }
    {
        let rest = self.long % self.short;
        let longs = self.shorts + self.long / self.short * self.longs;
        Sketch {
            long: self.short,
            short: rest,
            longs,
            shorts: self.longs,
            distance: self.distance,
            wide: true,
            done: (rest == 0) | (count - self.longs <= longs),
        }
    }
}

// The distance from the lowest cut of a gap, which is as far from the point below as the cuts leave
// of the gap. Below that cut it is the distance as it was.
fn from_lowest_cut(distance: u64, rest: u64) -> u64
    ensures { result ≡ from_lowest_cut distance rest }
{
    if distance < rest {
        distance
    } else {
        distance - rest
    }
}

// A function of its own: then the compiler makes no branch of it.
fn select(condition: bool, a: u64, b: u64) -> u64
    ensures { result ≡ cond condition a b }
{
    if condition { a } else { b }
}
