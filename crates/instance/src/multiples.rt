// The least common multiple of two periods.
ghost use Rattle.std.specs.Prelude.{◌≡◌, ◌<◌, ◌≤◌};
ghost use Rattle.laws.specs.DivisorLaws.{IsGcd};
ghost use Rattle.laws.specs.Multiples.{lcm};
ghost use Rattle.ranges.specs.Limits.{most_span, most_period};

// Euclid's algorithm.
fn greatest_common_divisor(a: u32, b: u32) -> u32
    ensures { IsGcd a b result }
{
    let mut divisor = a;
    let mut rest = b;
    while 0 < rest {
        let next = divisor % rest;
        divisor = rest;
        rest = next;
    }
    divisor
}

pub(crate) fn least_common_multiple(a: u32, b: u32) -> u32
    requires { (0 < a) × (a ≤ most_span) × (0 < b) × (b ≤ most_period) }
    ensures { result ≡ lcm a b }
{
    a / greatest_common_divisor(a, b) * b
}
