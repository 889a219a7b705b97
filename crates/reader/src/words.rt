// The words of a line, one after another.
ghost use Rattle.std.specs.Prelude.{◌≡◌, Some};
ghost use Rattle.reader.specs.Pieces.{NextWord, words_left};

use crate::piece::Piece;

// The words that are left of a line: what they stand in, if there are any.
#[derive(Drop)]
pub(crate) struct Words<'a> {
    pub(crate) rest: Option<Piece<'a>>,
}

impl<'a> Piece<'a> {
    // The words of a line.
    pub(crate) fn words(self) -> Words<'a>
        ensures { result.rest ≡ Some self.entry }
    {
        Words { rest: Some(self) }
    }
}

impl<'a> Iterator for Words<'a> {
    type Item = Piece<'a>;

    ghost next_gives = { NextWord };

    ghost remaining = { words_left };

    fn next(&mut self) -> Option<Piece<'a>> {
        let (word, rest) = self.rest?.part(b' ');
        self.rest = rest;
        Some(word)
    }
}
