// The parts of a file.
ghost use Rattle.std.specs.Prelude.{◌≡◌};

use crate::{Body, Position};
use rl_types::{List, Place};
use std::marker::Model;

/// A block: from the blanks before its `%%` to its end (the guide's section 2.1).
#[derive(Debug, Drop)]
pub struct Block {
    text: List<u8>,
    from: u64,
    place: Place,
    end: Place,
    body: Body,
}

impl Model for Block {
    ghost use Rattle.rl_lexical.specs.Blocks.{SourceBlock, IsBlock};

    ghost Value = { SourceBlock };

    ghost view = { λ b. record { text = b.text; from = b.from; place = b.place; end = b.end; body = b.body } };

    ghost invariant = { λ b. IsBlock (record { text = b.text; from = b.from; place = b.place; end = b.end; body = b.body }) };
}

/// A part of a file. Joined in order, the texts of the parts are the text of the file.
#[derive(Debug, Drop)]
pub enum Part {
    /// Text of the host language, which is passed on.
    Host(List<u8>),
    /// A block of the language.
    Block(Block),
}

impl Block {
    ghost use Rattle.std.specs.Prelude.{◌≡◌, ◌+◌, ◌<◌, ◌≤◌, ◌^◌, length, take, drop};
    ghost use Rattle.rl_lexical.specs.Blocks.{body_text, IsBlock};

    /// The block of these. Its body lies in its text, and has no more bytes, lines and columns than positions can say.
    pub fn new(text: List<u8>, from: u64, place: Place, end: Place, body: Body) -> Block
        requires { IsBlock (record { text = text; from = from; place = place; end = end; body = body }) }
        ensures { result ≡ record { text = text; from = from; place = place; end = end; body = body } }
    {
        Block {
            text,
            from,
            place,
            end,
            body,
        }
    }

    /// Its bytes in the file: the blanks before its `%%`, its marks, what stands between them, and the newline that ends
    /// a block of one line.
    pub fn text(&self) -> &[u8]
        ensures { result.now ≡ self.now.text }
    {
        self.text.as_slice()
    }

    /// How many bytes of the file are before its text.
    pub fn from(&self) -> u64
        ensures { result ≡ self.now.from }
    {
        self.from
    }

    /// The place of its `%%`.
    pub fn place(&self) -> Place
        ensures { result ≡ self.now.place }
    {
        self.place
    }

    /// The place of its end: of its `}%%`, or of the newline or the end of the file that ends a block of one line.
    pub fn end(&self) -> Place
        ensures { result ≡ self.now.end }
    {
        self.end
    }

    /// What stands between its marks, and where.
    pub fn body(&self) -> (&[u8], Position)
        ensures text { result.0.now ≡ body_text self.now }
        ensures at { result.1 ≡ self.now.body.at }
        ensures offsets { result.1.from + length result.0.now < 2 ^ 63 }
        ensures lines { result.1.place.line + length result.0.now < 2 ^ 32 }
        ensures columns { result.1.place.col + length result.0.now < 2 ^ 32 }
    {
        let behind = &self.text.as_slice()[self.body.before as usize..];
        (&behind[..self.body.length as usize], self.body.at)
    }
}
