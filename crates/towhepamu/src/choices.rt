// Choices as bytes, which the caller lends, and as words, which planning and the check take.
ghost use Rattle.std.specs.Prelude.{◌≡◌, ◌≤◌, min, length, take};
ghost use Rattle.std.specs.Fn.{FnOnceReturnsAt};
ghost use Rattle.laws.specs.Lists.{onto};
ghost use Rattle.towhepamu.specs.ByteLists.{ByteList};
ghost use Rattle.towhepamu.specs.Lending.{front};

use ranges::MOST_TASKS;

// A plan of more than MOST_TASKS choices is too long for every instance, and so are its first MOST_TASKS + 1.
pub(crate) const CHOICES: usize = MOST_TASKS as usize + 1;

// Copies as many choices as there is room for, and answers how many.
pub(crate) fn words_of_bytes(bytes: &[u8], words: &mut [u32]) -> usize
    ensures value { result ≡ min (length bytes.now) (length words.old) }
    ensures words_after { words.new ≡ onto (take result bytes.now) words.old }
{
    let n = bytes.len().min(words.len());
    for i in 0..n {
        words[i] = bytes[i] as u32;
    }
    n
}

// Hands over the front of a plan, which is all that decides.
pub(crate) fn with_front<T, F: FnOnce(&[u32]) -> T>(plan: &[u8], f: F) -> T
    requires { F.IsAlwaysCallable f }
    ensures { FnOnceReturnsAt F.FnOnce f (front plan.now) result }
{
    let mut choices = [0; CHOICES];
    let n = words_of_bytes(plan, &mut choices);
    f(&choices[..n])
}

// Copies choices, each of which fits a byte, to the front of a buffer that has room for them.
pub(crate) fn bytes_of_words(words: &[u32], bytes: &mut [u8])
    requires byte_list { ByteList words.now }
    requires words_in_bounds { length words.now ≤ length bytes.old }
    ensures { bytes.new ≡ onto words.now bytes.old }
{
    for (i, choice) in words.iter().enumerate() {
        bytes[i] = *choice as u8;
    }
}
