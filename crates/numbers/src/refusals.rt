// The refusals: what a call answers in place of a result, by name. Each has the number by which the customer knows it.
ghost use Rattle.std.specs.Prelude.{◌≡◌};
ghost use Rattle.numbers.specs.Refusals.{number_of};

// What is wrong with the numbers, or with the text, of a call.
#[derive(Clone, Copy, Debug, PartialEq, Eq)]
pub enum Refusal {
    Modulus = 1,
    Step = 2,
    Start = 3,
    Count = 4,
    Window = 5,
    Curve = 6,
    Room = 7,
    Malformed = 8,
    Argument = 9,
    Target = 10,
    Origin = 11,
}

// The number of a refusal, which is never 0.
impl From<Refusal> for u32 {
    ghost from_gives = { λ refusal number. number ≡ number_of refusal };

    fn from(refusal: Refusal) -> u32 {
        refusal as u32
    }
}
