// The sixteen refusals, and what a refused call hands back.
ghost use Rattle.std.specs.Prelude.{◌≡◌, not};
ghost use Rattle.records.specs.Refusals.{fault_at, fault_of, check};

use self::Layer::{Ids, Memory, Rules, Words};
use std::fmt;
use thiserror::Error;

// A refused call answers one of these. A variant carries the place of the word that it blames, where
// that place is not the same in every instruction; the first one carries the number of words given.
#[derive(Clone, Copy, Debug, Error)]
pub enum Error {
    #[error("there are no words, or fewer than the count says")]
    IncompleteData(usize),
    #[error("the count, or the number of words after the mask, is wrong")]
    InvalidOperandCount,
    #[error("the low 16 bits are no opcode from 56 to 63 (86 to 99 in decimal)")]
    UnsupportedInstruction,
    #[error("a bit of the mask is neither honoured nor stepped over")]
    UnsupportedOperand(usize),
    #[error("the id is not in its book")]
    InvalidId(usize),
    #[error("the new id is 0, too large or taken")]
    InvalidResultId(usize),
    #[error("the operand does not fit, or the opcode forbids the mask")]
    InvalidOperand(usize),
    #[error("the image is no variable, argument or element")]
    InvalidImageExpression(usize),
    #[error("image or sampler is no variable, argument or element of a variable")]
    InvalidGlobalVar(usize),
    #[error("this is no image, or none that the instruction takes")]
    InvalidImage(usize),
    #[error("the coordinate has the wrong kind or too few components")]
    InvalidCoordinate(usize),
    #[error("the stored value does not fit the image")]
    InvalidVectorType(usize),
    #[error("the type does not fit")]
    InvalidType(usize),
    #[error("the vector type of the coordinate is not declared")]
    MissingType(usize),
    #[error("a list or book has too few free cells")]
    Full,
    #[error("a number lies outside the used lists")]
    Mismatch,
}

// Which part of a call a refusal speaks of.
#[derive(Clone, Copy)]
pub enum Layer {
    Words,
    Ids,
    Rules,
    Memory,
}

impl fmt::Display for Layer {
    fn fmt<W: fmt::Write>(&self, f: &mut fmt::Formatter<W>) -> fmt::Result {
        f.write_str(match self {
            Words => "words",
            Ids => "ids",
            Rules => "rules",
            Memory => "memory",
        })
    }
}

// The number of a refusal, its layer, and its place: the index of the blamed word, from 0.
#[derive(Clone, Copy)]
pub struct Fault {
    pub number: u8,
    pub layer: Layer,
    pub place: usize,
}

const fn at(number: u8, layer: Layer, place: usize) -> Fault
    ensures { result ≡ fault_at number layer place }
{
    Fault {
        number,
        layer,
        place,
    }
}

impl Error {
    pub fn fault(self) -> Fault
        ensures { result ≡ fault_of self }
    {
        match self {
            Error::IncompleteData(given) => at(1, Words, given),
            Error::InvalidOperandCount => at(2, Words, 0),
            Error::UnsupportedInstruction => at(3, Words, 0),
            Error::UnsupportedOperand(mask) => at(4, Words, mask),
            Error::InvalidId(id) => at(5, Ids, id),
            Error::InvalidResultId(id) => at(6, Ids, id),
            Error::InvalidOperand(word) => at(7, Rules, word),
            Error::InvalidImageExpression(image) => at(8, Rules, image),
            Error::InvalidGlobalVar(image) => at(9, Rules, image),
            Error::InvalidImage(image) => at(10, Rules, image),
            Error::InvalidCoordinate(coordinate) => at(11, Rules, coordinate),
            Error::InvalidVectorType(value) => at(12, Rules, value),
            Error::InvalidType(ty) => at(13, Rules, ty),
            Error::MissingType(coordinate) => at(14, Rules, coordinate),
            Error::Full => at(15, Memory, 0),
            Error::Mismatch => at(16, Memory, 0),
        }
    }
}

// A check: refused by the error unless it holds.
pub fn expect(holds: bool, error: Error) -> Result<(), Error>
    ensures { result ≡ check (not holds) error }
{
    if holds { Ok(()) } else { Err(error) }
}
