// Where a reader stands.
ghost use Rattle.std.specs.Prelude.{◌≡◌, ◌+◌, length};
ghost use Rattle.reader.specs.Pieces.{Lies};

use crate::piece::Piece;

// The section reached, and how many of its lines are still due.
#[derive(Clone, Copy)]
pub enum Section {
    Top,
    Jobs(usize),
    Bounds(usize),
}

// What is left of a text, all of it from some byte on, and the section reached.
#[derive(Drop)]
pub struct Reader<'a> {
    pub(crate) text: &'a [u8],
    pub(crate) rest: Piece<'a>,
    pub(crate) section: Section,
    ghost lies: { Lies text.now rest },
    ghost ends: { rest.byte + length rest.bytes.now ≡ length text.now },
}
