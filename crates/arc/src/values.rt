// Values and slopes, from sums and products modulo M. No product is wider than a word.
ghost use Rattle.std.specs.Prelude.{◌≡◌, ◌*◌, ◌%◌, ◌^◌, ◌≤◌, ◌<◌};
ghost use Rattle.parabola.specs.Parabola.{value_at, slope_at};
ghost use Rattle.arc.specs.Arc.{parabola};

use crate::Within;
use numbers::{Residues, remainder};

// The bound on x stays a `requires` of each: a type for a number up to 2^20 would be no plainer.
impl Within {
    // V(x)
    pub(crate) fn value_at(self, x: u64) -> u64
        requires { x ≤ 1048576 }
        ensures { result ≡ value_at (parabola self.arc) x }
    {
        let arc = self.arc;
        let triangle = (x * x - x) / 2;
        let along = Residues {
            first: arc.value,
            second: times(arc.slope, x, arc.modulus),
            modulus: arc.modulus,
        };
        let value = Residues {
            first: along.sum(),
            second: remainder(arc.curve * triangle as i64, arc.modulus),
            modulus: arc.modulus,
        };
        value.sum()
    }

    // V(x + 1) - V(x)
    pub(crate) fn slope_at(self, x: u64) -> u64
        requires { x ≤ 1048576 }
        ensures { result ≡ slope_at (parabola self.arc) x }
    {
        let arc = self.arc;
        let slope = Residues {
            first: arc.slope,
            second: remainder(arc.curve * x as i64, arc.modulus),
            modulus: arc.modulus,
        };
        slope.sum()
    }
}

// a times a number, by doubling a for each binary digit of the number. No index is counted: the loop
// ends when no digit is left.
fn times(a: u64, number: u64, modulus: u64) -> u64
    requires { (a < modulus) × (modulus ≤ 2 ^ 62) }
    ensures { result ≡ a * number % modulus }
{
    let mut sum: u64 = 0;
    let mut double = a;
    let mut left = number;
    while 0 < left {
        let more = Residues {
            first: sum,
            second: double * (left % 2),
            modulus,
        };
        sum = more.sum();
        let twice = Residues {
            first: double,
            second: double,
            modulus,
        };
        double = twice.sum();
        left = left / 2;
    }
    sum
}
