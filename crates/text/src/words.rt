// From text to words: numbers are taken from the text one after another.
ghost use Rattle.std.specs.Prelude.{false, ◌≡◌, drop};
ghost use Rattle.laws.specs.Lists.{onto};
ghost use Rattle.text.specs.Outcomes.{words_outcome, TextEnds};
ghost use Rattle.text.specs.Text.{is_digit, is_blank, numbers};
ghost use Rattle.text.specs.TextSteps.{Counted, Writable};
ghost use Rattle.text.specs.Tokens.{number_from, token_at};
ghost use Rattle.text.specs.TokenSteps.{BlanksSkipped};

use crate::reader::next_number;
use refusals::Refusal;

const MOST_TEXT_BYTES: usize = ranges::MOST_TEXT_BYTES as usize;

// The largest 32-bit word.
const MOST_WORD: u64 = 4_294_967_295;

// What stands in a text after a position: a number and the position after its last digit, the text's end, or the offset
// of a fault.
#[derive(Clone, Copy)]
pub(crate) enum Token {
    Number(u32, usize),
    End,
    Fault(usize),
}

fn is_digit(b: u8) -> bool
    ensures { result ≡ is_digit b }
{
    b'0' <= b && b <= b'9'
}

fn is_blank(b: u8) -> bool
    ensures { result ≡ is_blank b }
{
    b == b' ' || b == b'\n'
}

// The first position from `at` on that is no blank.
fn after_blanks(text: &[u8], at: usize) -> usize
    ensures { BlanksSkipped text.now at result }
{
    // Counted by hand, since the position is the answer at the text's end too, and from beyond it.
    let mut i = at;
    while i < text.len() {
        if !is_blank(text[i]) {
            return i;
        }
        i += 1;
    }
    i
}

// The number whose first digit stands at `first`. It is left as soon as it is too large, however many digits it has.
fn number_from(text: &[u8], first: usize) -> Token
    ensures { result ≡ number_from first (drop first text.now) }
{
    let mut value: u64 = 0;
    // As above: the position goes into the answer.
    let mut at = first;
    while at < text.len() {
        let b = text[at];
        if !is_digit(b) {
            return Token::Number(value as u32, at);
        }
        value = value * 10 + ((b - b'0') as u64);
        if MOST_WORD < value {
            return Token::Fault(first);
        }
        at += 1;
    }
    Token::Number(value as u32, at)
}

// The next number from `at` on: whoever reads on goes on at the position that comes with it.
pub(crate) fn number_at(text: &[u8], at: usize) -> Token
    ensures { result ≡ token_at text.now at }
{
    let first = after_blanks(text, at);
    if text.len() <= first {
        return Token::End;
    }
    if is_digit(text[first]) {
        return number_from(text, first);
    }
    Token::Fault(first)
}

// How many numbers a text holds, or its first fault.
fn count_words(text: &[u8]) -> Result<usize, Refusal>
    ensures { Counted text.now result }
{
    let mut at = 0;
    let mut count = 0;
    loop {
        match next_number(text, at) {
            Token::Number(_, next) => {
                at = next;
                count += 1;
            }
            Token::End => {
                return Ok(count);
            }
            Token::Fault(place) => {
                return Err(Refusal::Text(place));
            }
        }
    }
}

// The numbers of a text with no fault, to the front of a buffer with room for them.
fn write_words(text: &[u8], words: &mut [u32])
    requires { Writable text.now words.old }
    ensures { words.new ≡ onto (numbers false text.now) words.old }
{
    let mut at = 0;
    let mut written = 0;
    loop {
        match next_number(text, at) {
            Token::Number(word, next) => {
                words[written] = word;
                at = next;
                written += 1;
            }
            Token::End => {
                return;
            }
            Token::Fault(_) => {
                return;
            }
        }
    }
}

// The text is read twice: nothing is written before all of it is known to be right and to have room.
pub fn words_of_text(text: &[u8], words: &mut [u32]) -> Result<usize, Refusal>
    ensures value { result ≡ (words_outcome text.now words.old).answer }
    ensures words_after { words.new ≡ (words_outcome text.now words.old).words }
    ensures promise { TextEnds text.now words.old result words.new }
{
    let n = MOST_TEXT_BYTES.min(text.len());
    let count = count_words(&text[..n])?;
    if n < text.len() {
        return Err(Refusal::Text(n));
    }
    if words.len() < count {
        return Err(Refusal::ShortBuffer(count));
    }
    write_words(text, words);
    Ok(count)
}
