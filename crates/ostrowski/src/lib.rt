// The Ostrowski digits of an argument over the denominators of an expansion, its residue from them,
// and modular division: the argument of a residue (document 02, 2.4). A residue is here
// step·argument modulo the modulus, not a segment's. A digit moves it by so many of its row's
// remainders, up in an even row and down in an odd one: that tells why an argument is close.
#![tactic(auto)]

ghost use Rattle.std.specs.Prelude.{◌≡◌, ◌+◌, ◌-◌, ◌*◌, ◌%◌, ◌<◌, ◌≤◌, ◌^◌};
ghost use Rattle.ostrowski.specs.Answer.{digits_answer, residue_answer, divide_answer};

use expansion::Table;
use numbers::{Refusal, Residues};

// The digits of an argument from row 0 on and zeros after them, and how many they are. An array of a
// fixed size with a count: the product's rules give the answer 88 places, and no call takes a heap.
#[derive(Drop)]
pub struct Numeral {
    pub digits: [u64; 88],
    pub count: usize,
}

// The digits of an argument, by division from row m - 1 down to row 0. Refused: a modulus or a step
// as by the expansion, then an argument that is not below the period.
#[tactic(auto, using(crate::proofs::Taking::few_rows, crate::proofs::Taking::denominator_positive))]
pub fn digits(modulus: u64, step: u64, argument: u64) -> Result<Numeral, Refusal>
    ensures { result ≡ digits_answer modulus step argument }
{
    // One function that hands the table over to both calls is slower, by 70 to 170 ns.
    let Table {
        denominators,
        last,
        ..
    } = expansion::expand(modulus, step)?;
    if denominators[last] <= argument {
        return Err(Refusal::Argument);
    }
    let mut digits = [0u64; 88];
    let mut rest = argument;
    for row in (0..last).rev() {
        let denominator = denominators[row];
        digits[row] = rest / denominator;
        rest %= denominator;
    }
    Ok(Numeral {
        digits,
        count: last,
    })
}

// The residue step·argument modulo the modulus, from the digits: each row's term less what the rows
// above it come to. Every product is below the modulus. Refused as digits.
#[tactic(auto, using(crate::proofs::Taking::few_rows, crate::proofs::Taking::denominator_positive))]
pub fn residue(modulus: u64, step: u64, argument: u64) -> Result<u64, Refusal>
    ensures { result ≡ residue_answer modulus step argument }
{
    let Table {
        remainders,
        denominators,
        last,
        ..
    } = expansion::expand(modulus, step)?;
    if denominators[last] <= argument {
        return Err(Refusal::Argument);
    }
    let mut residue = 0;
    let mut rest = argument;
    for row in (0..last).rev() {
        let denominator = denominators[row];
        let term = rest / denominator * remainders[row];
        rest %= denominator;
        let left = Residues {
            first: term,
            second: residue,
            modulus,
        };
        residue = left.difference();
    }
    Ok(residue)
}

// The argument below the period that has the target as its residue. Row by row, as the rows are
// drawn, the remainder is taken off the target as often as it goes, and each time its row's
// denominator is added to a sum: `same` for the rows of this row's parity, `other` for the others.
// After the loop this row is the last, of which nothing is taken. Refused: a modulus or a step as
// by the expansion, then a target that is not below the modulus, or no multiple of the greatest
// common divisor of step and modulus.
pub fn divide(modulus: u64, step: u64, target: u64) -> Result<u64, Refusal>
    ensures { result ≡ divide_answer modulus step target }
{
    expansion::refuse(modulus, step)?;
    if modulus <= target {
        return Err(Refusal::Target);
    }
    let (mut before, mut remainder) = (modulus, step);
    let (mut denominator_before, mut denominator) = (0, 1);
    let (mut same, mut other) = (0, 0);
    let mut rest = target;
    let mut is_odd = false;
    // Euclid's loop: it ends at a remainder of 0, and not at an index.
    while remainder != 0 {
        let next = denominator_before + before / remainder * denominator;
        let joined = same + rest / remainder * denominator;
        rest %= remainder;
        (before, remainder) = (remainder, before % remainder);
        (denominator_before, denominator) = (denominator, next);
        (same, other) = (other, joined);
        is_odd = !is_odd;
    }
    if rest != 0 {
        return Err(Refusal::Target);
    }
    let (from, taken) = if is_odd { (other, same) } else { (same, other) };
    Ok(subtract_sums(from, taken, denominator))
}

// The difference of two sums that are together less than twice the period, modulo the period.
fn subtract_sums(from: u64, taken: u64, period: u64) -> u64
    requires { (period ≤ 2 ^ 62) × (0 < period) × (from + taken < 2 * period) }
    ensures { result ≡ (from + (2 * period - taken)) % period }
{
    (from + (2 * period - taken)) % period
}
