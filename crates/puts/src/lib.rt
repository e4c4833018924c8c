// Bytes and numbers, put into a text one after the other.
#![tactic(auto)]

ghost use Rattle.std.specs.Prelude.{◌≡◌, ◌+◌, ◌≤◌, [], ◌∷◌, length};
ghost use Rattle.puts.specs.Decimals.{last_digit, decimal};
ghost use Rattle.puts.specs.Texts.{placed};

// The last decimal digit of a number.
fn last_digit(n: usize) -> u8
    ensures { result ≡ last_digit n }
{
    b'0' + (n % 10) as u8
}

// Puts some bytes into a text from a place on.
// Stays: a loop over the bytes, since pieces are a few bytes long, and the slice's own method tests of each whether it lies in the text, which is slower.
fn put_bytes(text: &mut [u8], at: usize, bytes: &[u8])
    requires { at + length bytes.now ≤ length text.old }
    ensures { text.new ≡ placed text.old at bytes.now }
{
    for (i, &byte) in bytes.iter().enumerate() {
        text[at + i] = byte;
    }
}

// Puts a number in decimal into a text from a place on, and answers the place after it.
// Stays: the place goes from call to call, since one in a lent writer is stored and read again for each digit, which is slower.
fn put_digits(text: &mut [u8], at: usize, n: usize) -> usize
    requires { at + length (decimal n) ≤ length text.old }
    ensures put { text.new ≡ placed text.old at (decimal n) }
    ensures after { result ≡ at + length (decimal n) }
{
    if n < 10 {
        text[at] = last_digit(n);
        return at + 1;
    }
    let last = put_digits(text, at, n / 10);
    text[last] = last_digit(n);
    last + 1
}

// A text that is lent, and the place where the next byte is put.
#[derive(Drop)]
pub struct Writer<'a> {
    text: &'a mut [u8],
    at: usize,
}

impl<'a> Writer<'a> {
    ghost use Rattle.puts.specs.Texts.{HasRoom, Put};

    // A writer at the front of a text.
    pub fn new(text: &'a mut [u8]) -> Writer<'a>
        ensures same_text { result.text.ghost_name ≡ text.entry.ghost_name }
        ensures unchanged { result.text.now ≡ text.old }
        ensures at_front { result.at ≡ 0 }
    {
        Writer { text, at: 0 }
    }

    // The place where the next byte is put.
    pub fn at(&self) -> usize
        ensures { result ≡ self.now.at }
    {
        self.at
    }

    // Puts a byte.
    #[tactic(auto, unfolding(crate::specs::Texts::placed))]
    pub fn put_byte(&mut self, byte: u8)
        requires { HasRoom self.old (byte ∷ []) }
        ensures { Put self.old (byte ∷ []) self.new }
    {
        self.text[self.at] = byte;
        self.at += 1;
    }

    // Puts some bytes.
    pub fn put_text(&mut self, bytes: &[u8])
        requires { HasRoom self.old bytes.now }
        ensures { Put self.old bytes.now self.new }
    {
        let at = self.at;
        put_bytes(self.text, at, bytes);
        self.at = at + bytes.len();
    }

    // Puts a number in decimal.
    pub fn put_number(&mut self, n: usize)
        requires { HasRoom self.old (decimal n) }
        ensures { Put self.old (decimal n) self.new }
    {
        self.at = put_digits(self.text, self.at, n);
    }
}
