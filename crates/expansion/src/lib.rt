// The Euclidean continued fraction of step/modulus as a table (document 01: the ladder).
#![tactic(auto)]

ghost use Rattle.std.specs.Prelude.{◌≡◌, ◌≤◌, ◌<◌, ◌^◌};
ghost use Rattle.numbers.specs.Refusals.{tested};
ghost use Rattle.expansion.specs.Rows.{expansion};
ghost use Rattle.expansion.specs.Answer.{refusal, table_of, answer};

use numbers::Refusal;

// Rows 0 to last: remainder, denominator of the convergent, quotient drawn. Every place after the last
// row is 0. Three arrays of a fixed size with the last row's index: the product's rules name them.
#[derive(Drop)]
pub struct Table {
    pub remainders: [u64; 89],
    pub denominators: [u64; 89],
    pub quotients: [u64; 89],
    pub last: usize,
}

// 2^62
const LARGEST_MODULUS: u64 = 4611686018427387904;

// The expansion of a step below a modulus up to 2^62. Refused as `refuse` says. Modulus and step are two
// numbers here and in `ostrowski`: a struct of the two would say no more.
pub fn expand(modulus: u64, step: u64) -> Result<Table, Refusal>
    ensures { result ≡ answer modulus step }
{
    refuse(modulus, step)?;
    Ok(fill(modulus, step))
}

// The first condition that does not hold: a modulus from 2 to 2^62, then a step below it.
pub fn refuse(modulus: u64, step: u64) -> Result<(), Refusal>
    ensures { result ≡ tested (refusal modulus step) }
{
    if modulus < 2 || LARGEST_MODULUS < modulus {
        return Err(Refusal::Modulus);
    }
    if modulus <= step {
        return Err(Refusal::Step);
    }
    Ok(())
}

// The rows of an accepted modulus and step, to the first remainder 0. The row is counted by hand:
// Euclid's loop ends at that remainder, and not at an index.
fn fill(modulus: u64, step: u64) -> Table
    requires { (step < modulus) × (modulus ≤ 2 ^ 62) }
    ensures { result ≡ table_of (expansion modulus step) }
{
    let mut remainders = [0u64; 89];
    let mut denominators = [0u64; 89];
    let mut quotients = [0u64; 89];
    let mut before = modulus;
    let mut remainder = step;
    let mut denominator_before: u64 = 0;
    let mut denominator: u64 = 1;
    let mut quotient: u64 = 0;
    let mut row: usize = 0;
    while remainder != 0 {
        quotient = before / remainder;
        let rest = before % remainder;
        remainders[row] = remainder;
        denominators[row] = denominator;
        quotients[row] = quotient;
        let next = denominator_before + quotient * denominator;
        before = remainder;
        remainder = rest;
        denominator_before = denominator;
        denominator = next;
        row = row + 1;
    }
    remainders[row] = 0;
    denominators[row] = denominator;
    quotients[row] = 0;
    Table {
        remainders: remainders,
        denominators: denominators,
        quotients: quotients,
        last: row,
    }
}
