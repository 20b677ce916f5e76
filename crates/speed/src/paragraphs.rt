// Made-up paragraphs of letters and spaces, as tokens.
ghost use Rattle.std.specs.Prelude.{◌≤◌};

use notation::Piece;
use std::alloc::{AllocError, Global};
use std::fmt;
use wire::{CallKind, Token, Tokens};

// A small generator, so that every run has the same paragraphs.
#[derive(Drop)]
pub(crate) struct Dice(u64);

impl Dice {
    pub(crate) fn new() -> Dice {
        Dice(1)
    }

    // The low bits of such a generator are hardly random.
    fn roll(&mut self) -> u64 {
        self.0 = self
            .0
            .wrapping_mul(6_364_136_223_846_793_005)
            .wrapping_add(1_442_695_040_888_963_407);
        self.0 >> 33
    }

    fn word_length(&mut self) -> usize
        ensures { (1 ≤ result) × (result ≤ 10) }
    {
        (self.roll() % 10) as usize + 1
    }

    fn letter(&mut self) -> u8
        ensures { (97 ≤ result) × (result ≤ 122) }
    {
        b'a' + (self.roll() % 26) as u8
    }
}

#[derive(Drop)]
pub(crate) struct Paragraph {
    pub(crate) tokens: Vec<u8>,
    // in letters and spaces, of which a letter takes two bytes
    size: usize,
}

impl Paragraph {
    fn new(heap: Global) -> Paragraph {
        Paragraph {
            tokens: Vec::new(heap),
            size: 0,
        }
    }

    // A letter or a space.
    fn push(&mut self, piece: Piece) -> Result<(), AllocError> {
        piece.write(&mut self.tokens)?;
        self.size = self.size.saturating_add(1);
        Ok(())
    }

    // So many letters and spaces in all; the last is a letter.
    fn of_size(heap: Global, size: usize, dice: &mut Dice) -> Result<Paragraph, AllocError> {
        let mut paragraph = Paragraph::new(heap);
        let mut left = dice.word_length();
        for k in 0..size {
            if left == 0 && k + 1 < size {
                paragraph.push(Piece::Space)?;
                left = dice.word_length();
            } else {
                paragraph.push(Piece::Letter(dice.letter()))?;
                left = left.saturating_sub(1);
            }
        }
        Ok(paragraph)
    }

    // Words of one letter, and then one that is too wide for a line, so that every way to break sticks out, and from each word all lines are tried.
    fn too_wide(heap: Global, words: usize, letters: usize) -> Result<Paragraph, AllocError> {
        let mut paragraph = Paragraph::new(heap);
        for _ in 1..words {
            paragraph.push(Piece::Letter(b'a'))?;
            paragraph.push(Piece::Space)?;
        }
        for _ in 0..letters {
            paragraph.push(Piece::Letter(b'a'))?;
        }
        Ok(paragraph)
    }

    // The bytes of the call that puts it as paragraph k.
    fn put_call(&self, heap: Global, k: u16) -> Result<Vec<u8>, AllocError> {
        let [high, low] = k.to_be_bytes();
        let mut call = Vec::from_slice(heap, &[CallKind::Put.into(), high, low])?;
        call.extend_from_slice(&self.tokens)?;
        Ok(call)
    }
}

impl fmt::Display for Paragraph {
    fn fmt<W: fmt::Write>(&self, f: &mut fmt::Formatter<W>) -> fmt::Result {
        for token in Tokens(&self.tokens) {
            let letter = match token {
                Token::Letter(letter) => char::from(letter),
                _ => ' ',
            };
            write!(f, "{letter}")?;
        }
        Ok(())
    }
}

#[derive(Drop)]
pub(crate) struct Text {
    pub(crate) paragraphs: Vec<Paragraph>,
}

impl Text {
    // Normal words in so many paragraphs, the first ones one longer where the size is no multiple of that.
    pub(crate) fn of_words(
        heap: Global,
        size: usize,
        paragraphs: usize,
        dice: &mut Dice,
    ) -> Result<Text, AllocError> {
        let mut text = Vec::new(heap);
        let short = size.checked_div(paragraphs).unwrap_or(0);
        let longer = size.checked_rem(paragraphs).unwrap_or(0);
        for k in 0..paragraphs {
            let size = short.saturating_add(usize::from(k < longer));
            text.push(Paragraph::of_size(heap, size, dice)?)?;
        }
        Ok(Text { paragraphs: text })
    }

    // One paragraph of 1,999 words of a letter, and a word of 98.
    pub(crate) fn too_wide(heap: Global) -> Result<Text, AllocError> {
        let paragraph = Paragraph::too_wide(heap, 2000, 98)?;
        Ok(Text {
            paragraphs: vec![in heap; paragraph]?,
        })
    }

    pub(crate) fn size(&self) -> usize {
        self.paragraphs
            .iter()
            .fold(0, |size, paragraph| size.saturating_add(paragraph.size))
    }

    // The calls that put its paragraphs, one after another.
    pub(crate) fn put_calls(&self, heap: Global) -> Result<Vec<Vec<u8>>, AllocError> {
        let mut calls = Vec::new(heap);
        for (k, paragraph) in (0..u16::MAX).zip(&self.paragraphs) {
            calls.push(paragraph.put_call(heap, k)?)?;
        }
        Ok(calls)
    }
}
