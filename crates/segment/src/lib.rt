// The regular and the fine search of a segment, the line (start - step·x) mod modulus over the arguments x below count: each shows the one
// argument of least residue below the count that it reaches, and clears the segment where that residue is no less than the window. The verdict
// of the regular search alone takes less time.
#![tactic(auto)]

ghost use Rattle.std.specs.Prelude.{◌≡◌};
ghost use Rattle.numbers.specs.Refusals.{tested};
ghost use Rattle.segment.specs.Accepted.{asked, refusal};
ghost use Rattle.segment.specs.Search.{verdict_at};
ghost use Rattle.segment.specs.Answer.{regular_answer, fine_answer, regular_verdict};

mod sketch;
mod state;
mod walk;

use numbers::Refusal;
use sketch::DistanceWalk;
use state::{FineWalk, RegularWalk};
use walk::end;

// A segment, with the words of a job.
#[derive(Clone, Copy, Debug, PartialEq, Eq)]
pub struct Segment {
    pub modulus: u64,
    pub step: u64,
    pub start: u64,
    pub count: u64,
    pub window: u64,
}

// Clear: the distance is at least the window. Possible: it is less, which does not yet make an argument below the count hard.
#[derive(Clone, Copy, Debug, PartialEq, Eq)]
pub enum Verdict {
    Clear,
    Possible,
}

// What the regular search shows: the count that it reached, the quotients that it drew to get there, the least residue below that count,
// and the argument that has it.
#[derive(Clone, Copy, Debug, PartialEq, Eq)]
pub struct Regular {
    pub count: u64,
    pub quotients: u32,
    pub distance: u64,
    pub argument: u64,
    pub verdict: Verdict,
}

// What the fine search shows: the same, with the label (index, part) of the configuration that it reached in place of the quotients.
#[derive(Clone, Copy, Debug, PartialEq, Eq)]
pub struct Fine {
    pub count: u64,
    pub index: u32,
    pub part: u64,
    pub distance: u64,
    pub argument: u64,
    pub verdict: Verdict,
}

const LARGEST_COUNT: u64 = 1048576;

// The regular search: from each quotient to the next, to the first regular configuration that has at
// least as many points as the count, or to that of the period where the count exceeds it. Refused as
// `refuse` says.
pub fn regular_search(segment: Segment) -> Result<Regular, Refusal>
    ensures { result ≡ regular_answer segment.modulus segment.step segment.start segment.count segment.window }
{
    refuse(segment)?;
    let end = end::<RegularWalk>(segment);
    Ok(Regular {
        count: end.longs + end.shorts,
        quotients: end.index,
        distance: end.distance,
        argument: end.argument,
        verdict: judge(end.distance, segment.window),
    })
}

// The fine search: the same over the fine configurations, so that it stops at no more points; refused
// in the same cases. Two calls, as C has them, over one loop: what they show differs in its fields.
pub fn fine_search(segment: Segment) -> Result<Fine, Refusal>
    ensures { result ≡ fine_answer segment.modulus segment.step segment.start segment.count segment.window }
{
    refuse(segment)?;
    let end = end::<FineWalk>(segment);
    Ok(Fine {
        count: end.longs + end.shorts,
        index: end.index,
        part: end.part,
        distance: end.distance,
        argument: end.argument,
        verdict: judge(end.distance, segment.window),
    })
}

// The verdict of the regular search alone, in less time; possible where the search is refused.
pub fn regular_verdict(segment: Segment) -> Verdict
    ensures { result ≡ regular_verdict segment.modulus segment.step segment.start segment.count segment.window }
{
    let Ok(()) = refuse(segment) else {
        return Verdict::Possible;
    };
    let sketch = end::<DistanceWalk>(segment);
    judge(sketch.distance, segment.window)
}

// The first condition that does not hold (in contracts the five numbers stand one by one, as in the
// definitions): those of the expansion of the modulus and the step, then a
// start below the modulus, a count from 1 to 1,048,576, a window from 1 to the modulus.
pub fn refuse(segment: Segment) -> Result<(), Refusal>
    ensures { result ≡ tested (refusal (asked segment.modulus segment.step segment.start segment.count segment.window)) }
{
    let Segment {
        modulus,
        step,
        start,
        count,
        window,
    } = segment;
    expansion::refuse(modulus, step)?;
    if modulus <= start {
        return Err(Refusal::Start);
    }
    if count < 1 || LARGEST_COUNT < count {
        return Err(Refusal::Count);
    }
    if window < 1 || modulus < window {
        return Err(Refusal::Window);
    }
    Ok(())
}

#[tactic(auto, unfolding(crate::specs::Search::verdict_at))]
fn judge(distance: u64, window: u64) -> Verdict
    ensures { result ≡ verdict_at distance window }
{
    if window <= distance {
        Verdict::Clear
    } else {
        Verdict::Possible
    }
}
