// One line per core.
ghost use Rattle.std.specs.Prelude.{◌<◌, ◌∷◌, ◌≡◌, length};
ghost use Rattle.text.specs.Decimal.{spaced};
ghost use Rattle.instance.specs.Held.{Sound, problem_in};
ghost use Rattle.laws.specs.Lists.{joined};
ghost use Rattle.tables.specs.Tables.{table_size};
ghost use Rattle.listing_lines.specs.LinesPut.{HasRoom, Puts};
ghost use Rattle.listing_lines.specs.ListingLines.{numbers_line, core_line};

use crate::bytes::Lines;
use instance::Instance;

impl<'a> Lines<'a> {
    // Slots, each after a space.
    fn slots(&mut self, slots: &[u8])
        requires { HasRoom self.old (spaced slots.now) }
        ensures { Puts self.old (spaced slots.now) self.new }
    {
        for slot in slots {
            self.field(*slot as u64);
        }
    }

    fn row(&mut self, number: u64, slots: &[u8])
        requires { HasRoom self.old (numbers_line "core" (number ∷ slots.now)) }
        ensures { Puts self.old (numbers_line "core" (number ∷ slots.now)) self.new }
    {
        self.named(b"core", number);
        self.slots(slots);
        self.byte(b'\n');
    }

    // The line of core k, counted from 0.
    fn core(&mut self, inst: Instance, table: &[u8], k: usize)
        requires sound { Sound inst }
        requires table_len { length table.now ≡ table_size (problem_in inst) }
        requires k_bound { k < (problem_in inst).cores }
        requires room { HasRoom self.old (core_line (problem_in inst) table.now k) }
        ensures { Puts self.old (core_line (problem_in inst) table.now k) self.new }
    {
        let span = inst.span as usize;
        let start = k * span;
        let end = start + span;
        self.row(k as u64 + 1, &table[start..end]);
    }

    pub(crate) fn cores(&mut self, inst: Instance, table: &[u8])
        requires sound { Sound inst }
        requires table_len { length table.now ≡ table_size (problem_in inst) }
        requires room { HasRoom self.old (joined (core_line (problem_in inst) table.now) (problem_in inst).cores) }
        ensures { Puts self.old (joined (core_line (problem_in inst) table.now) (problem_in inst).cores) self.new }
    {
        for k in 0..inst.cores as usize {
            self.core(inst, table, k);
        }
    }
}
