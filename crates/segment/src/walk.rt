// A search goes through the rows of the expansion, even and odd ones in turn, until it is done.
// Each search says where it begins and what a row makes of where it stands; one loop serves them
// all.
ghost use Rattle.std.specs.Prelude.{◌≡◌, true, false, ℕ};
ghost use Rattle.segment.specs.Walk.{Walking, after, GoesOn, without_window};

use crate::Segment;

// How many rows a search may take. Every accepted segment is done by then.
const BUDGET: u32 = 29;

// A search, row by row. Even and odd rows are two functions: one that asks which row it takes made
// a search some 7% slower, and a const parameter on a trait's method gets no proof.
pub(crate) trait Walk {
    // Where the search stands between two rows.
    type State: Copy;

    // Where it begins, whether it is done, and where an even or an odd row leads.
    ghost walk: { Walking Self.State };

    // What a row asks of a state that is not done.
    ghost CanGoOn: { (count : ℕ) → Self.State → Type 0 };

    // The window plays no part in a search.
    fn first(segment: Segment) -> Self::State
        ensures { result ≡ walk.first (without_window segment) };

    fn is_done(state: Self::State) -> bool
        ensures { result ≡ walk.done state };

    fn even_row(state: Self::State, count: u64) -> Self::State
        requires { CanGoOn count state }
        ensures { result ≡ walk.next false count state };

    fn odd_row(state: Self::State, count: u64) -> Self::State
        requires { CanGoOn count state }
        ensures { result ≡ walk.next true count state };
}

// The state in which a search ends. That it goes on to an end is asked of each caller: as a law of
// the trait its proof would have to stand in specs/.
pub(crate) fn end<W: Walk>(segment: Segment) -> W::State
    requires { GoesOn W.walk W.CanGoOn (without_window segment) }
    ensures { result ≡ after W.walk (without_window segment) 29 }
{
    let mut state = W::first(segment);
    if W::is_done(state) {
        return state;
    }
    for _ in 0..BUDGET.div_ceil(2) {
        // One test at the head of a turn and one between its rows would do, and are slower: the
        // compiler then tests a divisor for 0.
        state = W::even_row(state, segment.count);
        if W::is_done(state) {
            return state;
        }
        state = W::odd_row(state, segment.count);
        if W::is_done(state) {
            return state;
        }
    }
    unreachable!()
}
