// What is printed of an instruction: a line for each part and operand, with its place and its id; and of a refusal.
use crate::names::error_name;
use records::Error;
use std::fmt;
use words::{IdRef, Ids, ImageOperands, Instruction, Layout};

#[derive(Drop)]
pub struct Accepted(pub Instruction);

#[derive(Drop)]
pub struct Refused<'a> {
    pub error: Error,
    pub words: &'a [u32],
}

fn part<W: fmt::Write>(f: &mut fmt::Formatter<W>, name: &str, word: IdRef) -> fmt::Result {
    let place = word.place;
    let id = word.id;
    write!(f, "\n  {place:>3}  {name:<18}  %{id}")
}

fn optional<W: fmt::Write>(
    f: &mut fmt::Formatter<W>,
    name: &str,
    word: Option<IdRef>,
) -> fmt::Result {
    match word {
        Some(word) => part(f, name, word),
        None => Ok(()),
    }
}

fn result<W: fmt::Write>(f: &mut fmt::Formatter<W>, ids: &Ids, image: &str) -> fmt::Result {
    part(f, "result type", ids.result_type)?;
    part(f, "result", ids.result)?;
    part(f, image, ids.image)
}

fn fixed<W: fmt::Write>(
    f: &mut fmt::Formatter<W>,
    layout: Layout,
    ids: &Ids,
    image: &str,
) -> fmt::Result {
    match layout {
        Layout::Couple => {
            result(f, ids, "image")?;
            part(f, "sampler", ids.sampler)
        }
        Layout::Plain => {
            result(f, ids, image)?;
            part(f, "coordinate", ids.coordinate)
        }
        Layout::Component => {
            result(f, ids, image)?;
            part(f, "coordinate", ids.coordinate)?;
            part(f, "component", ids.component)
        }
        Layout::Reference => {
            result(f, ids, image)?;
            part(f, "coordinate", ids.coordinate)?;
            part(f, "reference", ids.reference)
        }
        Layout::Write => {
            part(f, "image", ids.image)?;
            part(f, "coordinate", ids.coordinate)?;
            part(f, "value", ids.value)
        }
    }
}

fn operands<W: fmt::Write>(f: &mut fmt::Formatter<W>, operands: &ImageOperands) -> fmt::Result {
    optional(f, "Bias", operands.bias)?;
    optional(f, "Lod", operands.lod)?;
    if let Some(grad) = operands.grad {
        part(f, "Grad x", grad.x)?;
        part(f, "Grad y", grad.y)?;
    }
    optional(f, "ConstOffset", operands.const_offset)?;
    optional(f, "Sample", operands.sample)?;
    optional(f, "MakeTexelAvailable", operands.make_texel_available)?;
    optional(f, "MakeTexelVisible", operands.make_texel_visible)
}

// The bits of a mask that take no word.
const BARE_BITS: [(u32, &str); 3] = [
    (0x400, "NonPrivateTexel"),
    (0x800, "VolatileTexel"),
    (0x4000, "Nontemporal"),
];

// The mask, with the names of those of its bits that take no word.
fn mask<W: fmt::Write>(f: &mut fmt::Formatter<W>, place: usize, mask: u32) -> fmt::Result {
    write!(f, "\n  {place:>3}  {:<18}  {mask:x}", "mask")?;
    for (bit, name) in BARE_BITS {
        if mask & bit != 0 {
            write!(f, " {name}")?;
        }
    }
    Ok(())
}

impl fmt::Display for Accepted {
    fn fmt<W: fmt::Write>(&self, f: &mut fmt::Formatter<W>) -> fmt::Result {
        let instruction = &self.0;
        let opcode = instruction.opcode;
        let row = opcode.row();
        write!(f, "Op{opcode:?}")?;
        let image = if row.rule.is_sample() {
            "sampled image"
        } else {
            "image"
        };
        fixed(f, row.layout, &instruction.ids, image)?;
        if instruction.operands.mask != 0 {
            mask(f, opcode.mask_place(), instruction.operands.mask)?;
        }
        operands(f, &instruction.operands)
    }
}

impl fmt::Display for Refused<'_> {
    fn fmt<W: fmt::Write>(&self, f: &mut fmt::Formatter<W>) -> fmt::Result {
        let error = self.error;
        let fault = error.fault();
        let number = fault.number;
        let name = error_name(error);
        let layer = fault.layer;
        let place = fault.place;
        write!(
            f,
            "refused: {number} {name}, layer {layer}, place {place}, "
        )?;
        match self.words.get(place) {
            Some(word) => write!(f, "word {word:x}")?,
            None => f.write_str("where no word stands")?,
        }
        write!(f, "\n         {error}")
    }
}
