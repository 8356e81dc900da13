// Numbers, at the front of what is left of a text.
ghost use Rattle.std.specs.Prelude.{◌≡◌, ◌+◌, ◌-◌, ◌*◌, ℕ, MatchOption, if◌then◌else◌};
ghost use Rattle.text.specs.Reading.{takes_digit, digits_from, number_from, unsigned, opposite};
ghost use Rattle.text.specs.Reader.{Front, NoFront, signed_number_from, with_end};

// A number and its line feed. Tells the number and what is left after the line feed.
#[tactic(auto, unfolding(crate::specs::Reading::number_from))]
pub(crate) fn number(text: &[u8]) -> Option<(u64, &[u8])>
    ensures { MatchOption result
        (NoFront number_from text.now)
        (λ r. Front number_from text.now r.0 r.1.now) }
{
    let (first, rest) = text.split_first()?;
    if !first.is_ascii_digit() {
        return None;
    }
    digits(rest, u64::from(*first - b'0'))
}

// The digits after a number's first one, and its line feed.
#[tactic(auto, using(crate::proofs::Steps::digits_step), unfolding(crate::specs::Reading::digits_from))]
fn digits(text: &[u8], first: u64) -> Option<(u64, &[u8])>
    ensures { MatchOption result
        (NoFront (digits_from first) text.now)
        (λ r. Front (digits_from first) text.now r.0 r.1.now) }
{
    let mut n = first;
    for (i, x) in text.iter().enumerate() {
        if *x == b'\n' {
            return Some((n, &text[i + 1..]));
        }
        n = with_digit(n, *x)?;
    }
    None
}

// A number with one more digit: not after a zero in front, and not beyond 2^64 - 1.
#[tactic(auto, unfolding(crate::specs::Reading::takes_digit))]
fn with_digit(n: u64, x: u8) -> Option<u64>
    ensures { result ≡ (if takes_digit n x then Some (n * 10 + (x - 48)) else None) }
{
    if n == 0 || !x.is_ascii_digit() {
        return None;
    }
    n.checked_mul(10)?.checked_add(u64::from(x - b'0'))
}

// A number with or without a minus sign, and its line feed.
#[tactic(auto, using(crate::proofs::Names::minus_is))]
pub(crate) fn signed_number(text: &[u8]) -> Option<(i64, &[u8])>
    ensures { MatchOption result
        (NoFront signed_number_from text.now)
        (λ r. Front signed_number_from text.now r.0 r.1.now) }
{
    match text.strip_prefix(b"-") {
        Some(text) => {
            let (size, rest) = number(text)?;
            Some((opposite(size)?, rest))
        }
        None => {
            let (size, rest) = number(text)?;
            Some((unsigned(size)?, rest))
        }
    }
}

// A number without a sign: a size below 2^63.
fn unsigned(size: u64) -> Option<i64>
    ensures { (end : ℕ) → unsigned (Some (size, end)) ≡ with_end result end }
{
    i64::try_from(size).ok()
}

// A number after a minus sign: a size below 2^63 that is not 0.
fn opposite(size: u64) -> Option<i64>
    ensures { (end : ℕ) → opposite (Some (size, end)) ≡ with_end result end }
{
    if size == 0 {
        return None;
    }
    Some(-i64::try_from(size).ok()?)
}
