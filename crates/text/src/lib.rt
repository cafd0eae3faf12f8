#![tactic(auto)]
// Text in a lent buffer, put one after the other, as much as there is room for.
ghost use Rattle.std.specs.Prelude.{◌≡◌, [], ◌∷◌, ◌+◌};
ghost use Rattle.gf2.specs.Rows.{bit};
ghost use Rattle.words.specs.Words.{value};
ghost use Rattle.text.specs.Text.{decimal, bits};
ghost use Rattle.text.specs.Put.{Written};

// a lent buffer, and where its text ends
#[derive(Drop)]
pub struct Page<'a> {
    pub buffer: &'a mut [u8],
    pub end: usize,
}

impl<'a> Page<'a> {
    // one byte
    fn byte(&mut self, x: u8)
        ensures { Written (x ∷ []) self.old self.new }
    {
        let len = self.buffer.len();
        if self.end < len {
            self.buffer[self.end] = x;
            self.end += 1;
        } else {
            self.end = len;
        }
    }

    // the bytes of a text
    pub fn bytes(&mut self, text: &[u8])
        ensures { Written text.now self.old self.new }
    {
        let start = self.end.min(self.buffer.len());
        let n = text.len().min(self.buffer.len() - start);
        self.buffer[start..start + n].copy_from_slice(&text[..n]);
        self.end = start + n;
    }

    // a number in decimal
    pub fn decimal(&mut self, n: usize)
        ensures { Written (decimal n) self.old self.new }
    {
        let mut digits = [0u8; 20];
        let k = io::decimal(n as u64, &mut digits);
        self.bytes(&digits[..k]);
    }

    // the columns of a row as zeros and ones
    pub fn bits(&mut self, row: &[u64], columns: usize)
        ensures { Written (bits columns (value row.now)) self.old self.new }
    {
        self.end = self.end.min(self.buffer.len());
        for c in 0..columns {
            self.byte(digit(row, c));
        }
    }
}

// column c of a row as the digit 0 or 1
fn digit(row: &[u64], c: usize) -> u8
    ensures { result ≡ 48 + bit c (value row.now) }
{
    let word = words::word(row, 0, row.len(), c / 64);
    b'0' + ((word >> (c % 64)) % 2) as u8
}
