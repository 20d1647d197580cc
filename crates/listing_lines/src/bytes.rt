// Bytes put into a lent buffer, one after another, where they have room.
ghost use Rattle.std.specs.Prelude.{[], ◌∷◌};
ghost use Rattle.text.specs.Decimal.{decimal};
ghost use Rattle.listing_lines.specs.LinesPut.{HasRoom, Puts};

// A lent buffer, and the position in it of the next byte.
#[derive(Drop)]
pub(crate) struct Lines<'a> {
    pub(crate) out: &'a mut [u8],
    pub(crate) at: usize,
}

impl<'a> Lines<'a> {
    pub(crate) fn byte(&mut self, byte: u8)
        requires { HasRoom self.old (byte ∷ []) }
        ensures { Puts self.old (byte ∷ []) self.new }
    {
        self.out[self.at] = byte;
        self.at += 1;
    }

    pub(crate) fn bytes(&mut self, bytes: &[u8])
        requires { HasRoom self.old bytes.now }
        ensures { Puts self.old bytes.now self.new }
    {
        let end = self.at + bytes.len();
        self.out[self.at..end].copy_from_slice(bytes);
        self.at = end;
    }

    // A number in base ten.
    pub(crate) fn number(&mut self, n: u64)
        requires { HasRoom self.old (decimal n) }
        ensures { Puts self.old (decimal n) self.new }
    {
        if n < 10 {
            self.byte(b'0' + n as u8);
            return;
        }
        self.number(n / 10);
        self.byte(b'0' + (n % 10) as u8);
    }

    // A number after a space.
    pub(crate) fn field(&mut self, n: u64)
        requires { HasRoom self.old (32 ∷ decimal n) }
        ensures { Puts self.old (32 ∷ decimal n) self.new }
    {
        self.byte(b' ');
        self.number(n);
    }
}
