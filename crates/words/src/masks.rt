// The bits of an image operands mask: how many words each takes, and what uses it.
ghost use Rattle.std.specs.Prelude.{◌≡◌, ◌<◌, Some};
ghost use Rattle.words.specs.Masks.{bit, mask_bit, words_at, has, is_sample, permits, supports, allows, words_needed};

use crate::opcodes::OperandRule;

// The bits by their numbers.
pub(crate) const BIAS: u32 = 0;

pub(crate) const LOD: u32 = 1;

pub(crate) const GRAD: u32 = 2;

pub(crate) const CONST_OFFSET: u32 = 3;

pub(crate) const SAMPLE: u32 = 6;

pub(crate) const MAKE_TEXEL_AVAILABLE: u32 = 8;

pub(crate) const MAKE_TEXEL_VISIBLE: u32 = 9;

const NON_PRIVATE_TEXEL: u32 = 10;

const VOLATILE_TEXEL: u32 = 11;

const NONTEMPORAL: u32 = 14;

// Who honours an operand. The words of one that nobody uses are stepped over.
#[derive(Clone, Copy)]
pub enum UsedBy {
    Samples,
    Loads,
    SamplesAndLoads,
    Nobody,
}

// A row of the mask table.
#[derive(Clone, Copy)]
pub struct MaskBit {
    pub words: usize,
    pub used_by: UsedBy,
}

const fn row(words: usize, used_by: UsedBy) -> Option<MaskBit>
    ensures { result ≡ Some (bit words used_by) }
{
    Some(MaskBit { words, used_by })
}

// The row of a bit by its number, if the table has it.
pub fn mask_bit(number: u32) -> Option<MaskBit>
    ensures { result ≡ mask_bit number }
{
    match number {
        BIAS | CONST_OFFSET => row(1, UsedBy::Samples),
        LOD => row(1, UsedBy::SamplesAndLoads),
        GRAD => row(2, UsedBy::Samples),
        SAMPLE => row(1, UsedBy::Loads),
        MAKE_TEXEL_AVAILABLE | MAKE_TEXEL_VISIBLE => row(1, UsedBy::Nobody),
        NON_PRIVATE_TEXEL | VOLATILE_TEXEL | NONTEMPORAL => row(0, UsedBy::Nobody),
        _ => None,
    }
}

// How many words the operand of a bit takes; a bit without a row takes none.
pub fn words_at(number: u32) -> usize
    ensures { result ≡ words_at number }
{
    mask_bit(number).map_or(0, |row| row.words)
}

// Whether a mask has a bit, by its number.
fn has_bit(mask: u32, number: u32) -> bool
    requires { number < 32 }
    ensures { result ≡ has mask number }
{
    (mask >> number) % 2 == 1
}

// How many words the operands of a mask take.
pub fn mask_words(mask: u32) -> usize
    ensures { result ≡ words_needed mask }
{
    let mut image_ops = mask;
    let mut words: usize = 0;
    while image_ops != 0 {
        let bit = image_ops.trailing_zeros();
        words += words_at(bit);
        image_ops ^= 1 << bit;
    }
    words
}

impl OperandRule {
    // Whether this is the rule of a sample or gather, whose image is a sampled image.
    pub fn is_sample(self) -> bool
        ensures { result ≡ is_sample self }
    {
        matches!(
            self,
            OperandRule::Implicit | OperandRule::Explicit | OperandRule::Gather
        )
    }

    // Whether an instruction of this rule honours the operand of a bit, or steps over it.
    pub fn permits(self, number: u32) -> bool
        ensures { result ≡ permits self number }
    {
        let Some(row) = mask_bit(number) else {
            return false;
        };
        match (self, row.used_by) {
            (OperandRule::Never, _) => false,
            (_, UsedBy::Nobody) => true,
            (OperandRule::Load, UsedBy::Samples) => false,
            (OperandRule::Load, _) => true,
            (OperandRule::Store, _) => false,
            (_, UsedBy::Loads) => false,
            _ => true,
        }
    }

    // Whether every bit of a mask is honoured or stepped over.
    pub fn supports(self, mask: u32) -> bool
        ensures { result ≡ supports self mask }
    {
        let mut image_ops = mask;
        while image_ops != 0 {
            let bit = image_ops.trailing_zeros();
            if !self.permits(bit) {
                return false;
            }
            image_ops ^= 1 << bit;
        }
        true
    }

    // Whether a mask of permitted bits states a level as an instruction of this rule has to.
    pub fn allows(self, mask: u32) -> bool
        ensures { result ≡ allows self mask }
    {
        let bias = has_bit(mask, BIAS);
        let lod = has_bit(mask, LOD);
        let grad = has_bit(mask, GRAD);
        match self {
            OperandRule::Implicit => !lod && !grad,
            OperandRule::Explicit => !bias && lod != grad,
            OperandRule::Gather => !bias && !lod && !grad,
            _ => true,
        }
    }
}
