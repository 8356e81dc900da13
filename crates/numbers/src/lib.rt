// Mathematics that the other layers share: remainders of numbers and of integers, divisors, parity,
// sums, Fibonacci numbers, lists, pieces of a stretch, the theory of a partly written buffer, refusals
// by name and as checklists; and calls on numbers and integers.
#![tactic(auto)]

ghost use Rattle.std.specs.Prelude.{◌≡◌, ◌+◌, ◌-◌, ◌%◌, ◌^◌, ◌<◌, ◌≤◌, min, nat_abs};
ghost use Rattle.numbers.specs.Integers.{◌modulo◌};

mod refusals;

pub use refusals::Refusal;

// The remainder of a number. Nearly all that come here are below the modulus already, which the test
// tells sooner than a division. By 0 nothing is taken off.
pub fn reduce(number: u64, modulus: u64) -> u64
    ensures { result ≡ number % modulus }
{
    if number < modulus {
        return number;
    }
    if modulus == 0 {
        return number;
    }
    number % modulus
}

// The remainder of a signed number. That of a negative number counts down from the modulus;
// -1 - number does not overflow.
pub fn remainder(number: i64, modulus: u64) -> u64
    ensures { result ≡ number modulo modulus }
{
    if number < 0 {
        if modulus == 0 {
            return 0;
        }
        return modulus - 1 - reduce((-1 - number) as u64, modulus);
    }
    reduce(number as u64, modulus)
}

// A signed number without its sign. (std's unsigned_abs would do; the must-fail edits magnitude_one_high
// and magnitude_one_low are of this function.)
pub fn magnitude(number: i64) -> u64
    ensures { result ≡ nat_abs number }
{
    if number < 0 {
        return (-1 - number) as u64 + 1;
    }
    number as u64
}

// The smaller of two numbers. (std's min would do; the must-fail edits first_for_smaller and
// second_for_smaller are of this function.)
pub fn min(a: u64, b: u64) -> u64
    ensures { result ≡ min a b }
{
    if a < b {
        return a;
    }
    b
}

// What the first of two numbers exceeds the second by: 0 where it does not. (std's saturating_sub would
// do; the must-fail edits difference_below_zero and nothing_taken_off are of this function.)
pub fn saturating_sub(a: u64, b: u64) -> u64
    ensures { result ≡ a - b }
{
    if a <= b {
        return 0;
    }
    a - b
}

// a - b modulo M, of any three numbers; M may be beyond 2^62. A number b beyond M counts as M, and
// modulo 0 the answer is a. The difference of `Residues` needs neither of the first two lines.
pub fn subtract(a: u64, b: u64, modulus: u64) -> u64
    ensures { result ≡ (a + (modulus - b)) % modulus }
{
    let a = reduce(a, modulus);
    let b = min(b, modulus);
    if b <= a {
        return a - b;
    }
    modulus - (b - a)
}

// Two numbers below a modulus of at most 2^62, whose sum and difference modulo it need no test.
#[derive(Clone, Copy)]
pub struct Residues {
    pub first: u64,
    pub second: u64,
    pub modulus: u64,
    pub ghost first_below: { first < modulus },
    pub ghost second_below: { second < modulus },
    pub ghost modulus_high: { modulus ≤ 2 ^ 62 },
}

impl Residues {
    // first + second modulo the modulus.
    pub fn sum(self) -> u64
        ensures { result ≡ (self.first + self.second) % self.modulus }
    {
        let sum = self.first + self.second;
        if sum < self.modulus {
            return sum;
        }
        sum - self.modulus
    }

    // first - second modulo the modulus. Where the second is known to be 0, the compiler sees that
    // there is nothing to do.
    pub fn difference(self) -> u64
        ensures { result ≡ (self.first + (self.modulus - self.second)) % self.modulus }
    {
        if self.second <= self.first {
            return self.first - self.second;
        }
        self.modulus - (self.second - self.first)
    }
}

#[cfg(test)]
mod tests {
    use super::*;

    // Rows of a, b, M, and what `subtract` answers.
    #[test]
    fn subtracts() -> Result<(), &'static str> {
        let cases = [
            (31, 14, 45, 17),
            (14, 31, 45, 28),
            (31, 31, 45, 0),
            (100, 14, 45, 41),
            (100, 46, 45, 10),
            (7, 3, 0, 7),
            (0, 1 << 62, (1 << 62) + 1, 1),
            (0, u64::MAX - 1, u64::MAX, 1),
            (u64::MAX - 1, 0, u64::MAX, u64::MAX - 1),
            (3, 1 << 63, u64::MAX, (1 << 63) + 2),
        ];
        for (a, b, modulus, want) in cases {
            if subtract(a, b, modulus) != want {
                return Err("a - b modulo M is not what its row says");
            }
        }
        Ok(())
    }
}
