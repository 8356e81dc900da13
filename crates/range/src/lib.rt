// The range of a strictly ascending list between two bounds, lo ≤ entry < hi, as a part of that
// same list (document 01: the cut-out).
#![tactic(auto)]

ghost use Rattle.std.specs.Prelude.{◌≡◌, true};
ghost use Rattle.range.specs.Range.{ascending, below, start_of, count_of, place_of, Stretch};

use std::ops::Range;

// The entries from lo on and below hi. Where there are none, the empty range just after the entries
// below lo. Of a list that does not ascend strictly, or where lo is above hi, the empty range at
// the list's start.
#[tactic(auto, using(crate::proofs::Cases::within))]
pub fn range(list: &[u64], lo: u64, hi: u64) -> &[u64]
    ensures { Stretch 8 list.entry result (start_of lo hi list.now) (count_of lo hi list.now) }
{
    &list[locate(list, lo, hi)]
}

// Where in the list that range lies.
pub fn locate(list: &[u64], lo: u64, hi: u64) -> Range<usize>
    ensures { result ≡ place_of lo hi list.now }
{
    if hi < lo || !is_ascending(list) {
        return 0..0;
    }
    let start = count_below(list, lo);
    let end = count_below(list, hi);
    start..end
}

// Whether each entry is less than the next one. It goes on after a pair that is not, so that the
// compiler compares several pairs at once.
fn is_ascending(list: &[u64]) -> bool
    ensures { result ≡ ascending list.now }
{
    list.windows(2)
        .fold(true, |so_far, pair| so_far & (pair[0] < pair[1]))
}

// How many entries of a strictly ascending list are below the bound.
fn count_below(list: &[u64], bound: u64) -> usize
    requires { ascending list.now ≡ true }
    ensures { result ≡ below bound list.now }
{
    list.partition_point(|entry| *entry < bound)
}
