// Where a search stands, and its steps.
//
// The multiples of the step by the arguments below a configuration's count cut the circle of length
// modulus into gaps of at most two lengths (000, Property 1). A row of the expansion cuts every
// long gap by the short length, from one end: the left one in even rows, the right one in odd rows.
// The argument and the distance of the point below the start advance where their own gap is cut.
//
// Only the end of a search is a branch. Another one that depends on the numbers of a row could not
// be foreseen, and would cost more than a division: so a row divides whether or not it needs to,
// and selects what it needs of the results.
ghost use Rattle.std.specs.Prelude.{◌≡◌, true, false, ◌<◌};
ghost use Rattle.segment.specs.State.{first_state, quotient, all_cuts, last_cuts, cuts_of, Cutting, nearest, advanced_left, highest_cut, advanced_right, advanced, row_of, in_next_row, finished, ends, Steppable, regular_next, fine_next};

use crate::Segment;
use crate::walk::Walk;
use numbers::{min, saturating_sub};

// longs gaps of length long and shorts gaps of length short, after part cuts of the row index; the
// argument of least residue below the count longs + shorts, and its residue, the distance. Done:
// this is the configuration that the search reaches. A flag, and no variant of an enum: what is
// shown of a state is there in both cases.
#[derive(Clone, Copy)]
pub(crate) struct State {
    pub(crate) long: u64,
    pub(crate) short: u64,
    pub(crate) longs: u64,
    pub(crate) shorts: u64,
    pub(crate) argument: u64,
    pub(crate) distance: u64,
    pub(crate) part: u64,
    pub(crate) index: u32,
    pub(crate) done: bool,
}

// How often long gaps are cut, and what that leaves of one.
#[derive(Clone, Copy)]
struct Cuts {
    number: u64,
    rest: u64,
}

// The point below the start: its argument and its residue. A state has both as fields of its own,
// since the promises of steps (`StepsCorrect`) name them so.
#[derive(Clone, Copy)]
struct Nearest {
    argument: u64,
    distance: u64,
}

// A row of a search that goes on, towards a count. Its cuts are as many as the quotient of the
// lengths, which may leave nothing of a long gap.
#[derive(Clone, Copy)]
struct Row {
    state: State,
    count: u64,
    cuts: Cuts,
    ghost steppable: { Steppable count state },
    ghost divided: { cuts ≡ cuts_of (quotient state) state },
}

// A row with cuts that it has room for.
#[derive(Clone, Copy)]
struct CutRow {
    state: State,
    cuts: Cuts,
    ghost able: { Cutting cuts state },
    ghost within_budget: { state.index < 29 },
}

impl State {
    // One point. A step of 0 has no more than that, and a count of 1 asks for no more.
    pub(crate) fn first(segment: Segment) -> State
        ensures { result ≡ first_state segment.modulus segment.step segment.start segment.count }
    {
        State {
            long: segment.modulus,
            short: segment.step,
            longs: 1,
            shorts: 0,
            argument: 0,
            distance: segment.start,
            part: 0,
            index: 0,
            done: (segment.step == 0) | (segment.count <= 1),
        }
    }

    fn nearest(self) -> Nearest
        ensures { result ≡ nearest self }
    {
        Nearest {
            argument: self.argument,
            distance: self.distance,
        }
    }
}

impl Row {
    fn new(state: State, count: u64) -> Row
        requires { Steppable count state }
        ensures state_is { result.state ≡ state }
        ensures count_is { result.count ≡ count }
    {
        Row {
            state,
            count,
            cuts: Cuts {
                number: state.long / state.short,
                rest: state.long % state.short,
            },
        }
    }

    // The regular step draws a quotient: it cuts the long gaps as often as they can be, to the
    // configuration of the next row, or to that of the period.
    fn regular<const ODD: bool>(self) -> State
        ensures { result ≡ regular_next ODD self.count self.state }
    {
        if self.cuts.rest == 0 {
            let last = CutRow {
                state: self.state,
                cuts: Cuts {
                    number: self.cuts.number - 1,
                    rest: self.state.short,
                },
            };
            return last.next_row(last.advance_all::<ODD>(), true);
        }
        let all = CutRow {
            state: self.state,
            cuts: self.cuts,
        };
        all.next_row(all.advance_all::<ODD>(), self.reaches())
    }

    // The fine step does the same where the search goes on after it, and else goes to the first
    // configuration that is not below the count; in the last row to the last one at most.
    fn fine<const ODD: bool>(self) -> State
        ensures { result ≡ fine_next ODD self.count self.state }
    {
        if self.ends() {
            let last = CutRow {
                state: self.state,
                cuts: self.last_cuts(),
            };
            return last.finish(last.advance::<ODD>(), last.cuts.number == self.cuts.number);
        }
        let all = CutRow {
            state: self.state,
            cuts: self.cuts,
        };
        all.next_row(all.advance_all::<ODD>(), false)
    }

    // Whether the search is done after all cuts of the row. One cut may be enough: that test does
    // not wait for the division.
    fn ends(self) -> bool
        ensures { result ≡ ends self.count self.state }
    {
        let state = self.state;
        if self.count - state.shorts - state.longs <= state.longs {
            return true;
        }
        if self.cuts.rest == 0 {
            return true;
        }
        self.reaches()
    }

    // The same where the row leaves something of a long gap, and so is not the last: whether its
    // cuts make as many points as the count.
    fn reaches(self) -> bool
        requires { 0 < self.cuts.rest }
        ensures { result ≡ ends self.count self.state }
    {
        let state = self.state;
        self.count - state.longs <= state.shorts + self.cuts.number * state.longs
    }

    // As many cuts as reach the count, at most as many as leave something of a long gap.
    fn last_cuts(self) -> Cuts
        ensures { result ≡ cuts_of (last_cuts self.count self.state) self.state }
    {
        let state = self.state;
        let all = self.cuts.number - (self.cuts.rest == 0) as u64;
        let number = min((self.count - state.shorts - 1) / state.longs, all);
        Cuts {
            number,
            rest: state.long - number * state.short,
        }
    }
}

impl CutRow {
    // Where the cuts move the point below the start: from the left in even rows, from the right in
    // odd ones.
    fn advance<const ODD: bool>(self) -> Nearest
        ensures { result ≡ advanced ODD self.cuts.number self.state }
    {
        if ODD {
            self.advance_right()
        } else {
            self.advance_left()
        }
    }

    // The same where they are all cuts of the row.
    fn advance_all<const ODD: bool>(self) -> Nearest
        requires { self.cuts.number ≡ all_cuts self.state }
        ensures { result ≡ advanced ODD self.cuts.number self.state }
    {
        if ODD {
            self.advance_right()
        } else {
            self.advance_all_left()
        }
    }

    // Cuts from the left come between the point and the start one by one, as long as there is room
    // for a short length. In a short gap there is none.
    #[tactic(auto, unfolding(crate::specs::State::advanced_left))]
    fn advance_left(self) -> Nearest
        ensures { result ≡ advanced_left self.cuts.number self.state }
    {
        let state = self.state;
        let moves = min(self.cuts.number, state.distance / state.short);
        Nearest {
            argument: state.argument + moves * state.longs,
            distance: state.distance - moves * state.short,
        }
    }

    // All cuts of a row are enough for every move.
    fn advance_all_left(self) -> Nearest
        requires { self.cuts.number ≡ all_cuts self.state }
        ensures { result ≡ advanced_left self.cuts.number self.state }
    {
        let state = self.state;
        Nearest {
            argument: state.argument + state.distance / state.short * state.longs,
            distance: state.distance % state.short,
        }
    }

    // Cuts from the right come between them only in a long gap, and only if the distance is at
    // least what is left of it: a gap that is not cut is left alone. (In two tests after the
    // division: of one test, or of one before it, the compiler makes a branch.)
    fn advance_right(self) -> Nearest
        ensures { result ≡ advanced_right self.cuts.number self.state }
    {
        let state = self.state;
        let advanced = self.highest_cut();
        if state.longs <= state.argument {
            return state.nearest();
        }
        if state.distance < self.cuts.rest {
            return state.nearest();
        }
        advanced
    }

    // The highest of the cuts from the right that is not above the start.
    fn highest_cut(self) -> Nearest
        ensures { result ≡ highest_cut self.cuts.number self.state }
    {
        let state = self.state;
        let over = saturating_sub(state.distance, self.cuts.rest);
        let back = over / state.short;
        Nearest {
            argument: state.argument
                + (state.shorts + self.cuts.number * state.longs - back * state.longs),
            distance: over % state.short,
        }
    }

    // The next row begins where what is left of the long gaps is shorter than the short ones. Where
    // it is as long, there are as many points as the period.
    fn next_row(self, point: Nearest, done: bool) -> State
        ensures { result ≡ in_next_row done (row_of self.state self.cuts point) }
    {
        let state = self.state;
        State {
            long: state.short,
            short: self.cuts.rest,
            longs: state.shorts + self.cuts.number * state.longs,
            shorts: state.longs,
            argument: point.argument,
            distance: point.distance,
            part: 0,
            index: state.index + 1,
            done,
        }
    }

    // A fine search ends within a row, or with the whole of it at the beginning of the next.
    // Nothing foretells which, so the label is selected.
    fn finish(self, point: Nearest, whole: bool) -> State
        ensures { result ≡ finished whole (row_of self.state self.cuts point) }
    {
        let state = self.state;
        State {
            long: self.cuts.rest,
            short: state.short,
            longs: state.longs,
            shorts: state.shorts + self.cuts.number * state.longs,
            argument: point.argument,
            distance: point.distance,
            part: self.cuts.number * !whole as u64,
            index: state.index + whole as u32,
            done: true,
        }
    }
}

// The regular search. The fine one beside it differs in its step alone. Two impls of five lines that
// name their search, and no const parameter with a choice in each: no plainer.
pub(crate) struct RegularWalk;

impl Walk for RegularWalk {
    ghost use Rattle.expansion.specs.Reached.Search.{regular};
    ghost use Rattle.segment.specs.State.{walk_of, Steppable};

    type State = State;

    ghost walk = { walk_of regular };

    ghost CanGoOn = { Steppable };

    fn first(segment: Segment) -> State {
        State::first(segment)
    }

    fn is_done(state: State) -> bool {
        state.done
    }

    fn even_row(state: State, count: u64) -> State {
        Row::new(state, count).regular::<false>()
    }

    fn odd_row(state: State, count: u64) -> State {
        Row::new(state, count).regular::<true>()
    }
}

// The fine search.
pub(crate) struct FineWalk;

impl Walk for FineWalk {
    ghost use Rattle.expansion.specs.Reached.Search.{fine};
    ghost use Rattle.segment.specs.State.{walk_of, Steppable};

    type State = State;

    ghost walk = { walk_of fine };

    ghost CanGoOn = { Steppable };

    fn first(segment: Segment) -> State {
        State::first(segment)
    }

    fn is_done(state: State) -> bool {
        state.done
    }

    fn even_row(state: State, count: u64) -> State {
        Row::new(state, count).fine::<false>()
    }

    fn odd_row(state: State, count: u64) -> State {
        Row::new(state, count).fine::<true>()
    }
}
