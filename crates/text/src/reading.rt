// Reading a text that is split into words by one byte, the gap: a blank between words, or a line's end between lines.
ghost use Rattle.std.specs.Prelude.{◌≡◌, ◌≤◌, ◌==◌, IfSome, length, drop, ltb, position};
ghost use Rattle.text.specs.Words.{split, word_of, text_from, index_in, After};
ghost use Rattle.text.specs.Numerals.{number_of};

// A text, and the byte between its words.
#[derive(Clone, Copy)]
pub struct Words<'a> {
    pub text: &'a [u8],
    pub gap: u8,
}

impl<'a> Words<'a> {
    // Where the first gap stands.
    fn first_gap(self) -> Option<usize>
        ensures { result ≡ position (λ b. b == self.entry.gap) self.entry.text.now }
    {
        self.text.iter().position(|&b| b == self.gap)
    }

    // The first word, or an empty part where there is none.
    pub fn first(self) -> &'a [u8]
        ensures { result.now ≡ word_of self.entry.gap self.entry.text.now 0 }
    {
        match self.first_gap() {
            Some(end) => &self.text[..end],
            None => self.text,
        }
    }

    // The words behind the first one.
    pub fn rest(self) -> Words<'a>
        ensures after { After self.entry.gap self.entry.text.now result.text.now }
        ensures gap { result.gap ≡ self.entry.gap }
    {
        let text = match self.first_gap() {
            Some(end) => &self.text[end + 1..],
            None => &[],
        };
        Words { text, ..self }
    }

    // The words from word n on, counted from 0.
    pub fn skip(self, n: u8) -> Words<'a>
        ensures text { result.text.now ≡ text_from self.entry.gap self.entry.text.now n }
        ensures words { split self.entry.gap result.text.now ≡ drop n (split self.entry.gap self.entry.text.now) }
        ensures gap { result.gap ≡ self.entry.gap }
    {
        let mut words = self;
        for _ in 0..n {
            words = words.rest();
        }
        words
    }

    // Word n, or an empty part where there is none.
    pub fn word(self, n: u8) -> &'a [u8]
        ensures { result.now ≡ word_of self.entry.gap self.entry.text.now n }
    {
        self.skip(n).first()
    }

    pub fn has_word(self, n: u8) -> bool
        ensures { result ≡ ltb n (length (split self.entry.gap self.entry.text.now)) }
    {
        !self.skip(n).text.is_empty()
    }

    // The place of a word among these, counted from 0.
    pub fn place(self, word: &[u8]) -> Option<usize>
        ensures { result ≡ index_in word.now (split self.entry.gap self.entry.text.now) }
    {
        let mut names = self;
        let mut n = 0;
        while !names.text.is_empty() {
            if word == names.first() {
                return Some(n);
            }
            names = names.rest();
            n += 1;
        }
        None
    }

    // Word n as a number from 0 to `most`.
    pub fn number(self, n: u8, most: u64) -> Option<u64>
        ensures value { result ≡ number_of (word_of self.entry.gap self.entry.text.now n) most }
        ensures value_le_most { IfSome result (λ v. v ≤ most) }
    {
        number_in(self.word(n), most)
    }
}

// A word as a number from 0 to `most`.
pub fn number_in(word: &[u8], most: u64) -> Option<u64>
    ensures value { result ≡ number_of word.now most }
    ensures value_le_most { IfSome result (λ v. v ≤ most) }
{
    if word.is_empty() {
        return None;
    }
    let mut value: u64 = 0;
    for &b in word {
        if !b.is_ascii_digit() {
            return None;
        }
        value = value.checked_mul(10)?.checked_add(u64::from(b - b'0'))?;
    }
    if most < value { None } else { Some(value) }
}
