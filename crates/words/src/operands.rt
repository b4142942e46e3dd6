// The operands that follow a mask, each by its bit.
ghost use Rattle.std.specs.Prelude.{◌≡◌, ◌+◌, ◌≤◌, length};
ghost use Rattle.words.specs.Masks.{words_at, words_needed};
ghost use Rattle.words.specs.Operands.{id_at, no_operands, taken, operands_of};

use crate::masks::{
    BIAS, CONST_OFFSET, GRAD, LOD, MAKE_TEXEL_AVAILABLE, MAKE_TEXEL_VISIBLE, SAMPLE, words_at,
};

// An id, and the place of the word that holds it: what a refusal blames.
#[derive(Clone, Copy)]
pub struct IdRef {
    pub id: u32,
    pub place: usize,
}

impl IdRef {
    // Stands for an id that the instruction does not have.
    pub const NONE: IdRef = IdRef { id: 0, place: 0 };

    pub(crate) fn new(id: u32, place: usize) -> IdRef
        ensures id { result.id ≡ id }
        ensures place { result.place ≡ place }
    {
        IdRef { id, place }
    }
}

// The two operands of Grad.
#[derive(Clone, Copy)]
pub struct Gradient {
    pub x: IdRef,
    pub y: IdRef,
}

// The operands by the names of their bits, and the mask itself: 0 where the instruction has none.
#[derive(Clone, Copy)]
pub struct ImageOperands {
    pub mask: u32,
    pub bias: Option<IdRef>,
    pub lod: Option<IdRef>,
    pub grad: Option<Gradient>,
    pub const_offset: Option<IdRef>,
    pub sample: Option<IdRef>,
    pub make_texel_available: Option<IdRef>,
    pub make_texel_visible: Option<IdRef>,
}

// The id at index `next` of the words after the mask, the first of which stands at `first`.
fn id_at(words: &[u32], first: usize, next: usize) -> IdRef
    requires { (next + 1 ≤ length words.now) × (first ≤ 7) }
    ensures { result ≡ id_at words.now first next }
{
    IdRef::new(words[next], first + next)
}

impl ImageOperands {
    fn none(mask: u32) -> ImageOperands
        ensures { result ≡ no_operands mask }
    {
        ImageOperands {
            mask,
            bias: None,
            lod: None,
            grad: None,
            const_offset: None,
            sample: None,
            make_texel_available: None,
            make_texel_visible: None,
        }
    }

    // These with the operand of one bit more, whose words begin at index `next`.
    fn with(self, bit: u32, words: &[u32], first: usize, next: usize) -> ImageOperands
        requires { (next + words_at bit ≤ length words.now) × (first ≤ 7) }
        ensures { result ≡ taken bit words.now first next self }
    {
        match bit {
            BIAS => ImageOperands {
                bias: Some(id_at(words, first, next)),
                ..self
            },
            LOD => ImageOperands {
                lod: Some(id_at(words, first, next)),
                ..self
            },
            GRAD => {
                let x = id_at(words, first, next);
                let y = id_at(words, first, next + 1);
                ImageOperands {
                    grad: Some(Gradient { x, y }),
                    ..self
                }
            }
            CONST_OFFSET => ImageOperands {
                const_offset: Some(id_at(words, first, next)),
                ..self
            },
            SAMPLE => ImageOperands {
                sample: Some(id_at(words, first, next)),
                ..self
            },
            MAKE_TEXEL_AVAILABLE => ImageOperands {
                make_texel_available: Some(id_at(words, first, next)),
                ..self
            },
            MAKE_TEXEL_VISIBLE => ImageOperands {
                make_texel_visible: Some(id_at(words, first, next)),
                ..self
            },
            _ => self,
        }
    }
}

// The operands of a mask, lowest set bit first, from the words after it.
pub(crate) fn take_operands(mask: u32, words: &[u32], first: usize) -> ImageOperands
    requires { (words_needed mask ≤ length words.now) × (first ≤ 7) }
    ensures { result ≡ operands_of mask words.now first }
{
    let mut operands = ImageOperands::none(mask);
    let mut next: usize = 0;
    let mut image_ops = mask;
    while image_ops != 0 {
        let bit = image_ops.trailing_zeros();
        operands = operands.with(bit, words, first, next);
        next += words_at(bit);
        image_ops ^= 1 << bit;
    }
    operands
}
