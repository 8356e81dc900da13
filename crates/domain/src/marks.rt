// The marks of the parts of a domain.
ghost use Rattle.std.specs.Prelude.{◌≡◌};
ghost use Rattle.domain.specs.Marks.{mark_number};

// Of a part: not looked at, as phase 1 cleared the domain; clear; possible, and then it was
// scanned; or without arguments.
#[derive(Clone, Copy, Debug, PartialEq, Eq)]
pub enum Mark {
    Unseen = 0,
    Clear = 1,
    Possible = 2,
    Empty = 3,
}

// The number by which the customer knows a mark.
impl From<Mark> for u8 {
    ghost from_gives = { λ mark number. number ≡ mark_number mark };

    fn from(mark: Mark) -> u8 {
        mark as u8
    }
}
