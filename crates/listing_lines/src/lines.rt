// The lines of a listing.
ghost use Rattle.std.specs.Prelude.{[], ◌∷◌, ◌++◌};
ghost use Rattle.text.specs.Decimal.{decimal};
ghost use Rattle.listing_lines.specs.LinesPut.{HasRoom, Puts};
ghost use Rattle.listing_lines.specs.ListingLines.{numbers_line, refusal_line, span_line, cost_line, kept_line, refused_line};
ghost use Rattle.listing_lines.specs.Placing.{Room, Put};

use crate::bytes::Lines;
use prices::Price;
use refusals::Refusal;

impl<'a> Lines<'a> {
    // A word, and a number after a space.
    pub(crate) fn named(&mut self, word: &[u8], n: u64)
        requires { HasRoom self.old (word.now ++ (32 ∷ decimal n)) }
        ensures { Puts self.old (word.now ++ (32 ∷ decimal n)) self.new }
    {
        self.bytes(word);
        self.field(n);
    }

    // The line of a refusal, from its number and place.
    fn refusal(&mut self, number: u64, place: u64)
        requires { HasRoom self.old (numbers_line "refused" (number ∷ place ∷ [])) }
        ensures { Puts self.old (numbers_line "refused" (number ∷ place ∷ [])) self.new }
    {
        self.named(b"refused", number);
        self.field(place);
        self.byte(b'\n');
    }

    pub(crate) fn span(&mut self, span: u64)
        requires { HasRoom self.old (span_line span) }
        ensures { Puts self.old (span_line span) self.new }
    {
        self.named(b"span", span);
        self.byte(b'\n');
    }

    pub(crate) fn cost(&mut self, price: Price)
        requires { HasRoom self.old (cost_line price) }
        ensures { Puts self.old (cost_line price) self.new }
    {
        self.named(b"cost", price.energy);
        self.field(price.penalty);
        self.field(price.cost);
        self.byte(b'\n');
    }

    // The line of a task that is kept.
    pub(crate) fn kept(&mut self, number: u64, core: u64, level: u64, ticks: u64)
        requires { HasRoom self.old (kept_line number core level ticks) }
        ensures { Puts self.old (kept_line number core level ticks) self.new }
    {
        self.named(b"task", number);
        self.named(b" core", core);
        self.named(b" level", level);
        self.named(b" ticks", ticks);
        self.byte(b'\n');
    }

    // The line of a task that is refused.
    pub(crate) fn refused(&mut self, number: u64)
        requires { HasRoom self.old (refused_line number) }
        ensures { Puts self.old (refused_line number) self.new }
    {
        self.named(b"task", number);
        self.bytes(b" refused\n");
    }
}

// Puts the line of a refusal at a position of the buffer, and answers the position after it.
pub fn put_refusal(out: &mut [u8], at: usize, refusal: Refusal) -> usize
    requires { Room out.old at (refusal_line refusal) }
    ensures { Put out.old at (refusal_line refusal) out.new result }
{
    let mut lines = Lines { out, at };
    lines.refusal(refusal.number(), refusal.place());
    lines.at
}
