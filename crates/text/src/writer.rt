// Bytes, decimal numbers and lines, written one after another into a buffer.
ghost use Rattle.std.specs.Prelude.{◌≡◌, [], ◌∷◌};

// A buffer, and the place from which on it is written, as far as it has places. Beyond its end, a
// writer writes nothing.
#[derive(Drop)]
pub struct Writer<'a> {
    out: &'a mut [u8],
    at: usize,
}

impl<'a> Writer<'a> {
    ghost use Rattle.text.specs.Text.{decimal, line};
    ghost use Rattle.text.specs.Writing.{Wrote};

    // Writes from the first place on.
    pub fn new(out: &'a mut [u8]) -> Writer<'a>
        ensures same_buffer { result.out.ghost_name ≡ out.entry.ghost_name }
        ensures bytes { result.out.now ≡ out.old }
        ensures place { result.at ≡ 0 }
    {
        Writer { out, at: 0 }
    }

    // Writes from a place on, which may be beyond the end.
    pub fn starting_at(out: &'a mut [u8], at: usize) -> Writer<'a>
        ensures same_buffer { result.out.ghost_name ≡ out.entry.ghost_name }
        ensures bytes { result.out.now ≡ out.old }
        ensures place { result.at ≡ at }
    {
        Writer { out, at }
    }

    // The place after what was written.
    pub fn place(&self) -> usize
        ensures { result ≡ self.now.at }
    {
        self.at
    }

    // Writes bytes, as far as there are places.
    #[tactic(auto, using(crate::proofs::Writing::front_written))]
    pub fn put(&mut self, bytes: &[u8])
        ensures { Wrote self.old bytes.now self.new }
    {
        let start = self.at.min(self.out.len());
        let n = bytes.len().min(self.out.len() - start);
        self.out[start..start + n].copy_from_slice(&bytes[..n]);
        self.at += n;
    }

    // The same for one byte.
    pub fn put_byte(&mut self, x: u8)
        ensures { Wrote self.old (x ∷ []) self.new }
    {
        if self.at < self.out.len() {
            self.out[self.at] = x;
            self.at += 1;
        }
    }

    // The same for a number in decimal. Division by ten gives the last digit first, so the digits
    // fill an array of twenty bytes from its end; every number below 2^64 fits.
    pub fn put_number(&mut self, n: u64)
        ensures { Wrote self.old (decimal n) self.new }
    {
        // Not the kit's itoa: must-fail/digits_skipped.edit, which may not change, is of this loop, and
        // the product's rules allow no table of digits.
        let mut digits = [0u8; 20];
        let mut first = 19;
        let mut left = n;
        while 10 <= left {
            digits[first] = b'0' + (left % 10) as u8;
            left /= 10;
            first -= 1;
        }
        digits[first] = b'0' + left as u8;
        self.put(&digits[first..]);
    }

    // The same for a name, a number and a line feed.
    pub fn put_line(&mut self, name: &[u8], n: u64)
        ensures { Wrote self.old (line name.now (decimal n) []) self.new }
    {
        self.put(name);
        self.put_number(n);
        self.put_byte(b'\n');
    }
}
