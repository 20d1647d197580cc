// A list of words, read from its front.
ghost use Rattle.std.specs.Prelude.{◌≡◌, ◌≤◌, IfOk, OnErr};
ghost use Rattle.formats.specs.Readers.{Takes, start_of, is_ended};
ghost use Rattle.formats.specs.Taking.{between, take_word, take_end};

use refusals::{Refusal, Verdict};
use std::marker::Model;

// A list and the index of its next word. Contracts see that index, and the words from there on.
#[derive(Clone, Drop)]
pub struct WordReader<'a> {
    words: &'a [u32],
    at: usize,
}

impl<'a> Model for WordReader<'a> {
    ghost use Rattle.std.specs.Prelude.{drop};
    ghost use Rattle.formats.specs.Readers.{Left};

    ghost Value = { Left };

    ghost view = { λ reader. record { at = reader.at; words = drop reader.at reader.words.now } };
}

impl<'a> WordReader<'a> {
    pub fn new(words: &'a [u32]) -> WordReader<'a>
        ensures { result ≡ start_of words.now }
    {
        WordReader { words, at: 0 }
    }

    // The index of the next word.
    pub fn place(&self) -> usize
        ensures { result ≡ self.now.at }
    {
        let WordReader { at, .. } = self;
        *at
    }

    pub fn is_ended(&self) -> bool
        ensures { result ≡ is_ended self.now }
    {
        self.words.len() <= self.at
    }

    // The next word, if it is from `low` to `high`.
    pub fn word(&mut self, low: u32, high: u32) -> Result<u32, Refusal>
        ensures takes { Takes self.old (take_word (between low high)) result self.new }
        ensures within { IfOk result (λ word. (low ≤ word) × (word ≤ high)) }
        ensures as_before { OnErr result (self.new ≡ self.old) }
    {
        let place = self.at;
        if self.words.len() <= place {
            return Err(Refusal::WordCount(place));
        }
        let word = self.words[place];
        if word < low || high < word {
            return Err(Refusal::WordRange(place));
        }
        self.at = place + 1;
        Ok(word)
    }

    // Nothing may be left.
    pub fn end(&self) -> Verdict
        ensures { Takes self.now take_end result self.now }
    {
        if self.at < self.words.len() {
            return Err(Refusal::WordCount(self.at));
        }
        Ok(())
    }
}
