// The bytes that tokens, calls and answers begin with, as kinds.
ghost use Rattle.std.specs.Prelude.{◌≡◌, Some, codes};
ghost use Rattle.wire.specs.Kinds.{token_byte, token_width, Behind, call_byte, answer_byte, TokenByte, CallByte, AnswerByte};

use std::error::Error;
use std::fmt;

// A byte that begins nothing here.
#[derive(Clone, Copy, Debug, PartialEq, Eq)]
pub struct NoKind;

impl fmt::Display for NoKind {
    ghost output = { λ _. Some (codes "a byte begins nothing") };

    fn fmt<W: fmt::Write>(&self, f: &mut fmt::Formatter<W>) -> fmt::Result {
        f.write_str("a byte begins nothing")
    }
}

impl Error for NoKind {}

// What a token begins with; End closes a note or a command.
#[derive(Clone, Copy, Debug, PartialEq, Eq)]
pub enum TokenKind {
    Letter,
    Space,
    Mark,
    PageOf,
    Note,
    Command,
    Given,
    End,
}

impl TokenKind {
    // What stands behind the first bytes of a token of this kind, of a note or a command behind those before what it holds; None where one is missing.
    // It branches, since the next token's byte would wait for a width that is looked up.
    #[inline(always)]
    pub(crate) fn behind(self, bytes: &[u8]) -> Option<&[u8]>
        ensures { Behind (token_width self) bytes.now result }
    {
        match self {
            TokenKind::Letter | TokenKind::Mark | TokenKind::PageOf | TokenKind::Command => {
                bytes.get(2..)
            }
            TokenKind::Space | TokenKind::Note | TokenKind::Given | TokenKind::End => {
                bytes.get(1..)
            }
        }
    }
}

impl TryFrom<u8> for TokenKind {
    type Error = NoKind;

    ghost try_from_gives = { TokenByte };

    fn try_from(byte: u8) -> Result<Self, NoKind> {
        match byte {
            0 => Ok(TokenKind::Letter),
            1 => Ok(TokenKind::Space),
            2 => Ok(TokenKind::Mark),
            3 => Ok(TokenKind::PageOf),
            4 => Ok(TokenKind::Note),
            5 => Ok(TokenKind::Command),
            6 => Ok(TokenKind::Given),
            7 => Ok(TokenKind::End),
            _ => Err(NoKind),
        }
    }
}

impl From<TokenKind> for u8 {
    ghost from_gives = { λ kind byte. byte ≡ token_byte kind };

    fn from(kind: TokenKind) -> u8 {
        match kind {
            TokenKind::Letter => 0,
            TokenKind::Space => 1,
            TokenKind::Mark => 2,
            TokenKind::PageOf => 3,
            TokenKind::Note => 4,
            TokenKind::Command => 5,
            TokenKind::Given => 6,
            TokenKind::End => 7,
        }
    }
}

#[derive(Clone, Copy, Debug, PartialEq, Eq)]
pub enum CallKind {
    Put,
    Cut,
    Define,
    Show,
    WhereIs,
    HowMany,
    PutIn,
}

impl TryFrom<u8> for CallKind {
    type Error = NoKind;

    ghost try_from_gives = { CallByte };

    fn try_from(byte: u8) -> Result<Self, NoKind> {
        match byte {
            0 => Ok(CallKind::Put),
            1 => Ok(CallKind::Cut),
            2 => Ok(CallKind::Define),
            3 => Ok(CallKind::Show),
            4 => Ok(CallKind::WhereIs),
            5 => Ok(CallKind::HowMany),
            6 => Ok(CallKind::PutIn),
            _ => Err(NoKind),
        }
    }
}

impl From<CallKind> for u8 {
    ghost from_gives = { λ kind byte. byte ≡ call_byte kind };

    fn from(kind: CallKind) -> u8 {
        match kind {
            CallKind::Put => 0,
            CallKind::Cut => 1,
            CallKind::Define => 2,
            CallKind::Show => 3,
            CallKind::WhereIs => 4,
            CallKind::HowMany => 5,
            CallKind::PutIn => 6,
        }
    }
}

#[derive(Clone, Copy, Debug, PartialEq, Eq)]
pub enum AnswerKind {
    Done,
    Refused,
    Rows,
    Numbers,
}

impl TryFrom<u8> for AnswerKind {
    type Error = NoKind;

    ghost try_from_gives = { AnswerByte };

    fn try_from(byte: u8) -> Result<Self, NoKind> {
        match byte {
            0 => Ok(AnswerKind::Done),
            1 => Ok(AnswerKind::Refused),
            2 => Ok(AnswerKind::Rows),
            3 => Ok(AnswerKind::Numbers),
            _ => Err(NoKind),
        }
    }
}

impl From<AnswerKind> for u8 {
    ghost from_gives = { λ kind byte. byte ≡ answer_byte kind };

    fn from(kind: AnswerKind) -> u8 {
        match kind {
            AnswerKind::Done => 0,
            AnswerKind::Refused => 1,
            AnswerKind::Rows => 2,
            AnswerKind::Numbers => 3,
        }
    }
}
