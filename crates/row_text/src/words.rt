//! The words of a line.

/// What is left of a line, word by word.
#[derive(Clone, Copy, Debug)]
pub struct Words<'a> {
    rest: Option<&'a str>,
}

impl<'a> Words<'a> {
    pub fn of(line: &'a str) -> Words<'a> {
        Words { rest: Some(line) }
    }

    /// The next word; None behind the last one.
    pub fn word(&mut self) -> Option<&'a str> {
        let rest = self.rest?;
        let (word, behind) = match rest.split_once(' ') {
            Some((word, behind)) => (word, Some(behind)),
            None => (rest, None),
        };
        self.rest = behind;
        Some(word)
    }

    /// The next word as a number; None where it is none, or is too large.
    pub fn number(&mut self) -> Option<u64> {
        self.word()?.parse::<u64>().ok()
    }

    pub fn u32(&mut self) -> Option<u32> {
        self.word()?.parse::<u32>().ok()
    }

    pub fn u16(&mut self) -> Option<u16> {
        self.word()?.parse::<u16>().ok()
    }

    pub fn u8(&mut self) -> Option<u8> {
        self.word()?.parse::<u8>().ok()
    }

    pub fn place(&mut self) -> Option<usize> {
        self.word()?.parse::<usize>().ok()
    }

    /// Whether no word is left.
    pub fn is_over(&self) -> bool {
        self.rest.is_none()
    }

    /// All that is left, blanks too; nothing behind the last word.
    pub fn rest(self) -> &'a str {
        match self.rest {
            Some(rest) => rest,
            None => "",
        }
    }
}
