// The words of an instance, in the order in which they are drawn.
ghost use Rattle.std.specs.Prelude.{◌≤◌, length};

// Room for the longest list that is drawn, and a word more: a settings count and five settings, a level count and four levels, a
// task count and four tasks, their count again and four deadlines.
pub(crate) const WORDS_ROOM: usize = 6 + 9 + 13 + 5 + 1;

// The list is the first `len` of the words.
#[derive(Clone, Copy)]
pub struct Words {
    words: [u32; WORDS_ROOM],
    len: usize,
    ghost fits: { len ≤ 34 },
}

impl Words {
    pub(crate) fn new() -> Words {
        Words {
            words: [0; WORDS_ROOM],
            len: 0,
        }
    }

    pub fn list(&self) -> &[u32]
        ensures { length result.now ≤ 34 }
    {
        &self.words[..self.len]
    }

    pub(crate) fn len(&self) -> usize {
        self.len
    }

    // Puts a word after the list, where there is room.
    pub(crate) fn push(&mut self, word: u32) {
        if self.len < WORDS_ROOM {
            self.words[self.len] = word;
            self.len += 1;
        }
    }

    // Puts a word at a place, where there is room.
    pub(crate) fn put(&mut self, at: usize, word: u32) {
        if at < WORDS_ROOM {
            self.words[at] = word;
        }
    }

    // Ends the list after so many words, which are 0 where none was put.
    pub(crate) fn end_at(&mut self, len: usize) {
        if len <= WORDS_ROOM {
            self.len = len;
        }
    }
}
