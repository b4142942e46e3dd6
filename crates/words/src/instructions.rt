// One image instruction, read from its words.
ghost use Rattle.std.specs.Prelude.{◌≡◌, ◌≤◌, length, drop, slice_index};
ghost use Rattle.records.specs.declared.refusals.Error.TheVariants.{InvalidOperandCount};
ghost use Rattle.records.specs.Refusals.{check};
ghost use Rattle.words.specs.Opcodes.{mask_place, place, row_of};
ghost use Rattle.words.specs.Instructions.{first_word, wrong_count, of_result, ids_of, mask_checks, image_operands, instruction};

use crate::masks::mask_words;
use crate::opcodes::{Layout, Opcode};
use crate::operands::{IdRef, ImageOperands, take_operands};
use records::{Error, expect};

// The fixed ids by name. One that the opcode does not have is `IdRef::NONE`.
#[derive(Clone, Copy)]
pub struct Ids {
    pub result_type: IdRef,
    pub result: IdRef,
    // the image, or the sampled image of a sample or gather
    pub image: IdRef,
    pub sampler: IdRef,
    pub coordinate: IdRef,
    pub component: IdRef,
    pub reference: IdRef,
    pub value: IdRef,
}

#[derive(Clone, Copy)]
pub struct Instruction {
    pub opcode: Opcode,
    pub ids: Ids,
    pub operands: ImageOperands,
}

// The first word, if there are as many words as its count says.
fn first_word(words: &[u32]) -> Result<u32, Error>
    ensures { result ≡ first_word words.now }
{
    let [first, ..] = words else {
        return Err(Error::IncompleteData(0));
    };
    if words.len() < (*first / 0x1_0000) as usize {
        return Err(Error::IncompleteData(words.len()));
    }
    Ok(*first)
}

impl Opcode {
    fn expect_count(self, count: usize) -> Result<(), Error>
        ensures { result ≡ check (wrong_count (row_of self) count) InvalidOperandCount }
    {
        let row = self.row();
        let right = match row.layout {
            Layout::Couple => count == row.least,
            _ => row.least <= count,
        };
        expect(right, Error::InvalidOperandCount)
    }
}

impl Ids {
    const NONE: Ids = Ids {
        result_type: IdRef::NONE,
        result: IdRef::NONE,
        image: IdRef::NONE,
        sampler: IdRef::NONE,
        coordinate: IdRef::NONE,
        component: IdRef::NONE,
        reference: IdRef::NONE,
        value: IdRef::NONE,
    };

    // Those of an instruction with a result, as far as all of these agree.
    fn of_result(result_type: u32, res: u32, image: u32) -> Ids
        ensures { result ≡ of_result result_type res image }
    {
        Ids {
            result_type: IdRef::new(result_type, 1),
            result: IdRef::new(res, 2),
            image: IdRef::new(image, 3),
            ..Ids::NONE
        }
    }
}

// The fixed ids, and the words after them: the mask, if there is one, and its operands.
fn split_by(layout: Layout, words: &[u32]) -> (Ids, &[u32])
    requires { mask_place layout ≤ length words.now }
    ensures ids { result.0 ≡ ids_of layout words.now }
    ensures rest { result.1.now ≡ drop (mask_place layout) words.now }
{
    match (layout, words) {
        (Layout::Couple, [_, ty, res, image, sampler, rest @ ..]) => {
            let ids = Ids {
                sampler: IdRef::new(*sampler, 4),
                ..Ids::of_result(*ty, *res, *image)
            };
            (ids, rest)
        }
        (Layout::Plain, [_, ty, res, image, coordinate, rest @ ..]) => {
            let ids = Ids {
                coordinate: IdRef::new(*coordinate, 4),
                ..Ids::of_result(*ty, *res, *image)
            };
            (ids, rest)
        }
        (Layout::Component, [_, ty, res, image, coordinate, component, rest @ ..]) => {
            let ids = Ids {
                coordinate: IdRef::new(*coordinate, 4),
                component: IdRef::new(*component, 5),
                ..Ids::of_result(*ty, *res, *image)
            };
            (ids, rest)
        }
        (Layout::Reference, [_, ty, res, image, coordinate, reference, rest @ ..]) => {
            let ids = Ids {
                coordinate: IdRef::new(*coordinate, 4),
                reference: IdRef::new(*reference, 5),
                ..Ids::of_result(*ty, *res, *image)
            };
            (ids, rest)
        }
        (Layout::Write, [_, image, coordinate, value, rest @ ..]) => {
            let ids = Ids {
                image: IdRef::new(*image, 1),
                coordinate: IdRef::new(*coordinate, 2),
                value: IdRef::new(*value, 3),
                ..Ids::NONE
            };
            (ids, rest)
        }
        _ => unreachable(),
    }
}

impl Opcode {
    fn split_words(self, words: &[u32]) -> (Ids, &[u32])
        requires { place self ≤ length words.now }
        ensures ids { result.0 ≡ ids_of (row_of self).layout words.now }
        ensures rest { result.1.now ≡ drop (place self) words.now }
    {
        split_by(self.row().layout, words)
    }
}

// The mask, and the words of its operands. Where there is no mask it is 0.
fn split_mask(rest: &[u32]) -> (u32, &[u32])
    ensures mask { result.0 ≡ slice_index rest.now 0 }
    ensures operands { result.1.now ≡ drop 1 rest.now }
{
    match rest {
        [mask, operands @ ..] => (*mask, operands),
        [] => (0, rest),
    }
}

fn check_mask(opcode: Opcode, mask: u32, operands: &[u32]) -> Result<(), Error>
    ensures { result ≡ mask_checks opcode mask operands.now }
{
    let rule = opcode.row().rule;
    let place = opcode.mask_place();
    expect(rule.supports(mask), Error::UnsupportedOperand(place))?;
    expect(
        operands.len() == mask_words(mask),
        Error::InvalidOperandCount,
    )?;
    expect(rule.allows(mask), Error::InvalidOperand(place))
}

// What the words from the mask on say.
fn parse_image_operands(opcode: Opcode, rest: &[u32]) -> Result<ImageOperands, Error>
    ensures { result ≡ image_operands opcode rest.now }
{
    let (mask, operands) = split_mask(rest);
    check_mask(opcode, mask, operands)?;
    Ok(take_operands(mask, operands, opcode.mask_place() + 1))
}

// What the words of one instruction say, or which word is wrong. Words past the count are not read.
pub fn parse_instruction(words: &[u32]) -> Result<Instruction, Error>
    ensures { result ≡ instruction words.now }
{
    let first = first_word(words)?;
    let opcode = Opcode::try_from(first % 0x1_0000)?;
    let count = (first / 0x1_0000) as usize;
    opcode.expect_count(count)?;
    let (ids, rest) = opcode.split_words(&words[0..count]);
    let operands = parse_image_operands(opcode, rest)?;
    Ok(Instruction {
        opcode,
        ids,
        operands,
    })
}
