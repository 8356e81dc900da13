// Scans: the hard arguments of an arc counted, and listed with their values, by going from each
// value to the next.
ghost use Rattle.std.specs.Prelude.{◌≡◌, ◌+◌, ◌%◌, ◌^◌, ◌≤◌, ◌<◌, length};
ghost use Rattle.std.proofs.lemmas.List.Edits.{sets};
ghost use Rattle.parabola.specs.Parabola.{hard_list};
ghost use Rattle.arc.specs.Arc.{parabola};
ghost use Rattle.domain.specs.Scan.{PointBelow, next_point, listed_from, lowered_values};

use arc::{Point, Within};
use numbers::{Residues, remainder};

// An arc to be scanned: its argument x is listed as begin + x, and its value as it was before the
// arc was raised.
#[derive(Clone, Copy)]
pub(crate) struct Scan {
    pub(crate) within: Within,
    pub(crate) raise: u64,
    pub(crate) begin: u64,
    pub(crate) ghost raise_below: { raise < within.arc.modulus },
    pub(crate) ghost end_bound: { begin + within.arc.count ≤ 2 ^ 53 },
}

// A line keeps its slope. The compiler takes this test out of a scan's loop and makes two loops of
// it.
// Three parameters and no struct: the point changes from turn to turn, and the others stay.
fn next(point: Point, second: u64, modulus: u64) -> Point
    requires { PointBelow second modulus point }
    ensures { result ≡ next_point second modulus point }
{
    if second == 0 {
        return Point {
            value: add_fixed(point.value, point.slope, modulus),
            slope: point.slope,
        };
    }
    let value = Residues {
        first: point.value,
        second: point.slope,
        modulus,
    };
    let slope = Residues {
        first: point.slope,
        second,
        modulus,
    };
    Point {
        value: value.sum(),
        slope: slope.sum(),
    }
}

// a + b modulo M where b stays as it is in a loop: what the modulus exceeds it by is known before a
// is, and the test need not wait for the sum, as in `Residues::sum`.
fn add_fixed(a: u64, b: u64, modulus: u64) -> u64
    requires { (a < modulus) × (b < modulus) × (modulus ≤ 2 ^ 62) }
    ensures { result ≡ (a + b) % modulus }
{
    let rest = modulus - b;
    if a < rest {
        return a + b;
    }
    a - rest
}

impl Scan {
    ghost use Rattle.domain.specs.Scanned.{scanned, arguments_of, values_of};

    // How many hard arguments there are. Where no value is above the highest hard one, every
    // argument is hard, and none need be visited.
    pub(crate) fn count_hard(self) -> u32
        ensures { result ≡ length (hard_list (scanned self)) }
    {
        let arc = self.within.arc;
        if arc.highest == arc.modulus - 1 {
            return arc.count as u32;
        }
        let second = remainder(arc.curve, arc.modulus);
        let mut point = Point {
            value: arc.value,
            slope: arc.slope,
        };
        let mut number: u32 = 0;
        for _x in 0..arc.count {
            number += (point.value <= arc.highest) as u32;
            point = next(point, second, arc.modulus);
        }
        number
    }

    // Writes the hard arguments, of which there are `number`, into the list from its first place
    // on, and beside each its value. The next value is formed before this one is written, so that
    // the sum and the writes overlap.
    // No `for` over the arguments: it ends with the last hard one, which that would have to test beside
    // x, and so is no plainer. List and values are two buffers, as C lends them.
    pub(crate) fn list_hard(self, number: u32, list: &mut [u64], values: &mut [u64])
        requires number_counted { number ≡ length (hard_list (scanned self)) }
        requires list_room { number ≤ length list.old }
        requires values_room { number ≤ length values.old }
        ensures list_after { list.new ≡ sets list.old 0 (arguments_of self) }
        ensures values_after { values.new ≡ sets values.old 0 (values_of self) }
    {
        let arc = self.within.arc;
        let second = remainder(arc.curve, arc.modulus);
        let mut point = Point {
            value: arc.value,
            slope: arc.slope,
        };
        let end = number as usize;
        let mut at: usize = 0;
        let mut x = self.begin;
        while at < end {
            let value = point.value;
            point = next(point, second, arc.modulus);
            if value <= arc.highest {
                let lowered = Residues {
                    first: value,
                    second: self.raise,
                    modulus: arc.modulus,
                };
                list[at] = x;
                values[at] = lowered.difference();
                at += 1;
            }
            x += 1;
        }
    }
}

// The same where all arguments are hard, from the first place on, of an arc that is not raised and
// begins at 0. There is nothing to test. Each column has its own loop: the arguments need no
// values, so the compiler writes several at once.
// By index: the place of an argument is the argument, and its value has the same place. List and values
// are two buffers, as C lends them.
pub(crate) fn list_all(within: Within, list: &mut [u64], values: &mut [u64])
    requires all_hard { length (hard_list (parabola within.arc)) ≡ within.arc.count }
    requires list_room { within.arc.count ≤ length list.old }
    requires values_room { within.arc.count ≤ length values.old }
    ensures list_after { list.new ≡ sets list.old 0 (listed_from 0 (parabola within.arc)) }
    ensures values_after { values.new ≡ sets values.old 0 (lowered_values 0 (parabola within.arc)) }
{
    let arc = within.arc;
    for x in 0..arc.count {
        list[x as usize] = x;
    }
    let second = remainder(arc.curve, arc.modulus);
    let mut point = Point {
        value: arc.value,
        slope: arc.slope,
    };
    for x in 0..arc.count {
        values[x as usize] = point.value;
        point = next(point, second, arc.modulus);
    }
}
