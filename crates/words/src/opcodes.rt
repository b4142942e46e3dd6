// The fourteen opcodes, and what the words of each look like.
ghost use Rattle.std.specs.Prelude.{◌≡◌};
ghost use Rattle.std.specs.Option.{ok_or};
ghost use Rattle.records.specs.declared.refusals.Error.TheVariants.{UnsupportedInstruction};
ghost use Rattle.words.specs.Opcodes.{opcode_row, row_of, numbered, place};

use self::Layout::{Component, Couple, Plain, Reference, Write};
use self::OperandRule::{Explicit, Gather, Implicit, Load, Never, Store};
use records::Error;

// By SPIR-V's names, without their "Op".
#[derive(Clone, Copy, Debug)]
pub enum Opcode {
    SampledImage,
    ImageSampleImplicitLod,
    ImageSampleExplicitLod,
    ImageSampleDrefImplicitLod,
    ImageSampleDrefExplicitLod,
    ImageSampleProjImplicitLod,
    ImageSampleProjExplicitLod,
    ImageSampleProjDrefImplicitLod,
    ImageSampleProjDrefExplicitLod,
    ImageFetch,
    ImageGather,
    ImageDrefGather,
    ImageRead,
    ImageWrite,
}

// The fixed words after the first. All but Couple may go on with a mask and its operands.
#[derive(Clone, Copy)]
pub enum Layout {
    // result type, result, image, sampler
    Couple,
    // result type, result, image or sampled image, coordinate
    Plain,
    // the same and the component of a gather
    Component,
    // the same and the depth reference
    Reference,
    // image, coordinate, value
    Write,
}

// Which operands a mask may name.
#[derive(Clone, Copy)]
pub enum OperandRule {
    // no mask at all
    Never,
    // neither Lod nor Grad
    Implicit,
    // Lod or Grad, not both, and no Bias
    Explicit,
    // none of Bias, Lod and Grad
    Gather,
    Load,
    Store,
}

// A row of the opcode table. `least` is the least word count, of a Couple the only one.
#[derive(Clone, Copy)]
pub struct OpcodeRow {
    pub number: u32,
    pub least: usize,
    pub layout: Layout,
    pub rule: OperandRule,
}

const fn row(number: u32, least: usize, layout: Layout, rule: OperandRule) -> OpcodeRow
    ensures { result ≡ opcode_row number least layout rule }
{
    OpcodeRow {
        number,
        least,
        layout,
        rule,
    }
}

impl Opcode {
    pub fn row(self) -> OpcodeRow
        ensures { result ≡ row_of self }
    {
        match self {
            Opcode::SampledImage => row(86, 5, Couple, Never),
            Opcode::ImageSampleImplicitLod => row(87, 5, Plain, Implicit),
            Opcode::ImageSampleExplicitLod => row(88, 7, Plain, Explicit),
            Opcode::ImageSampleDrefImplicitLod => row(89, 6, Reference, Implicit),
            Opcode::ImageSampleDrefExplicitLod => row(90, 8, Reference, Explicit),
            Opcode::ImageSampleProjImplicitLod => row(91, 5, Plain, Implicit),
            Opcode::ImageSampleProjExplicitLod => row(92, 7, Plain, Explicit),
            Opcode::ImageSampleProjDrefImplicitLod => row(93, 6, Reference, Implicit),
            Opcode::ImageSampleProjDrefExplicitLod => row(94, 8, Reference, Explicit),
            Opcode::ImageFetch => row(95, 5, Plain, Load),
            Opcode::ImageGather => row(96, 6, Component, Gather),
            Opcode::ImageDrefGather => row(97, 6, Reference, Gather),
            Opcode::ImageRead => row(98, 5, Plain, Load),
            Opcode::ImageWrite => row(99, 4, Write, Store),
        }
    }

    // Where the mask stands, if there is one: right after the fixed words.
    pub fn mask_place(self) -> usize
        ensures { result ≡ place self }
    {
        match self.row().layout {
            Layout::Write => 4,
            Layout::Couple | Layout::Plain => 5,
            Layout::Component | Layout::Reference => 6,
        }
    }
}

// The opcode with this number, if it is one of the fourteen.
impl TryFrom<u32> for Opcode {
    type Error = Error;

    ghost try_from_gives = { λ number r. r ≡ ok_or (numbered number) UnsupportedInstruction };

    fn try_from(number: u32) -> Result<Opcode, Error> {
        match number {
            86 => Ok(Opcode::SampledImage),
            87 => Ok(Opcode::ImageSampleImplicitLod),
            88 => Ok(Opcode::ImageSampleExplicitLod),
            89 => Ok(Opcode::ImageSampleDrefImplicitLod),
            90 => Ok(Opcode::ImageSampleDrefExplicitLod),
            91 => Ok(Opcode::ImageSampleProjImplicitLod),
            92 => Ok(Opcode::ImageSampleProjExplicitLod),
            93 => Ok(Opcode::ImageSampleProjDrefImplicitLod),
            94 => Ok(Opcode::ImageSampleProjDrefExplicitLod),
            95 => Ok(Opcode::ImageFetch),
            96 => Ok(Opcode::ImageGather),
            97 => Ok(Opcode::ImageDrefGather),
            98 => Ok(Opcode::ImageRead),
            99 => Ok(Opcode::ImageWrite),
            _ => Err(Error::UnsupportedInstruction),
        }
    }
}
