// A text and a position in it, held together: the number that stands there is taken by one step.
ghost use Rattle.std.specs.Prelude.{◌≡◌};
ghost use Rattle.text.specs.Tokens.{token_at};

use crate::words::{Token, number_at};

#[derive(Drop)]
pub(crate) struct Reader<'a> {
    pub(crate) text: &'a [u8],
    pub(crate) at: usize,
}

pub(crate) fn reader_at<'a>(text: &'a [u8], at: usize) -> Reader<'a>
    ensures { (result.text ≡ text.entry) × (result.at ≡ at) }
{
    Reader { text, at }
}

pub(crate) fn next<'a>(reader: Reader<'a>) -> Token
    ensures { result ≡ token_at reader.entry.text.now reader.entry.at }
{
    number_at(reader.text, reader.at)
}

// The step for whoever has the text and the position apart.
pub(crate) fn next_number(text: &[u8], at: usize) -> Token
    ensures { result ≡ token_at text.now at }
{
    next(reader_at(text, at))
}
