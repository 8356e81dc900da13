// Fields with decimal numbers, read strictly from a text, one after another or at any place. A
// field is a name, a number and a line feed.
ghost use Rattle.std.specs.Prelude.{◌≡◌, drop};
ghost use Rattle.text.specs.Reading.{field_at, signed_field_at};

use crate::reading::{number, signed_number};

// What is left of a text that is read.
#[derive(Drop)]
pub struct Reader<'a> {
    rest: &'a [u8],
}

impl<'a> Reader<'a> {
    ghost use Rattle.std.specs.Prelude.{◌↔◌, length, IsTrue, MatchOption};
    ghost use Rattle.text.specs.Reader.{Read, NotRead};

    // Reads from the first place on.
    pub fn new(text: &'a [u8]) -> Reader<'a>
        ensures { result.rest.now ≡ text.now }
    {
        Reader { rest: text }
    }

    // Nothing is left.
    pub fn is_at_end(&self) -> bool
        ensures { IsTrue result ↔ length self.now.rest.now ≡ 0 }
    {
        self.rest.is_empty()
    }

    // A name, a number below 2^64 and a line feed: no sign, no space, no leading zero but in 0
    // itself. Where they are not next, nothing is read.
    #[tactic(auto, using(crate::proofs::Names::name_first), unfolding(crate::specs::Reading::field_at))]
    pub fn field(&mut self, name: &[u8]) -> Option<u64>
        ensures { MatchOption result
            (NotRead (field_at name.now) self.old self.new)
            (λ n. Read (field_at name.now) self.old n self.new) }
    {
        let (n, rest) = number(self.rest.strip_prefix(name)?)?;
        self.rest = rest;
        Some(n)
    }

    // The same with a signed number whose size is below 2^63: a minus sign before one that is not
    // 0, and no other sign. Two methods: they share three lines, and the call between differs.
    #[tactic(auto, using(crate::proofs::Names::name_first), unfolding(crate::specs::Reading::signed_field_at))]
    pub fn signed_field(&mut self, name: &[u8]) -> Option<i64>
        ensures { MatchOption result
            (NotRead (signed_field_at name.now) self.old self.new)
            (λ n. Read (signed_field_at name.now) self.old n self.new) }
    {
        let (n, rest) = signed_number(self.rest.strip_prefix(name)?)?;
        self.rest = rest;
        Some(n)
    }
}

// What is left of a text from a place on; nothing is, where the place is beyond the end.
fn left_from(text: &[u8], at: usize) -> &[u8]
    ensures { result.now ≡ drop at text.now }
{
    &text[at.min(text.len())..]
}

// The field at a place of a text, and the place after its line feed. Any place may be asked for:
// beyond the end of the text there is no field.
pub fn field(text: &[u8], at: usize, name: &[u8]) -> Option<(u64, usize)>
    ensures { result ≡ field_at name.now at text.now }
{
    let mut reader = Reader::new(left_from(text, at));
    let n = reader.field(name)?;
    Some((n, text.len() - reader.rest.len()))
}

// The same for a signed field.
pub fn signed_field(text: &[u8], at: usize, name: &[u8]) -> Option<(i64, usize)>
    ensures { result ≡ signed_field_at name.now at text.now }
{
    let mut reader = Reader::new(left_from(text, at));
    let s = reader.signed_field(name)?;
    Some((s, text.len() - reader.rest.len()))
}
