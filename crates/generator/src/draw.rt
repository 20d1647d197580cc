// A fixed generator, so that every run draws the same instances.
ghost use Rattle.std.specs.Prelude.{◌<◌, ◌≤◌, ◌^◌, length};

// Lehmer's generator, whose state is the last number drawn.
#[derive(Clone, Copy)]
pub struct Generator {
    last: u32,
}

impl Generator {
    pub fn new(seed: u32) -> Generator {
        Generator { last: seed }
    }

    // The next number below n.
    pub(crate) fn below(&mut self, n: u32) -> u32
        requires { 0 < n }
        ensures { result < n }
    {
        self.last = (u64::from(self.last) * 48271 % 2147483647) as u32;
        self.last % n
    }

    // A number from 1 to `most`, or 0 where there is none.
    pub fn up_to(&mut self, most: u32) -> u32
        ensures { result ≤ most }
    {
        if most == 0 {
            return 0;
        }
        1 + self.below(most)
    }

    // One of the numbers, each as often as it stands there.
    pub(crate) fn one_of(&mut self, numbers: &[u32]) -> u32
        requires some { 0 < length numbers.now }
        requires few { length numbers.now < 2 ^ 32 }
    {
        numbers[self.below(numbers.len() as u32) as usize]
    }
}
