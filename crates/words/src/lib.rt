// The words of one image instruction: what they say, or which word is wrong.
#![tactic(auto)]

mod instructions;
mod laws;
mod masks;
mod opcodes;
mod operands;

pub use instructions::{Ids, Instruction, parse_instruction};
pub use laws::{examples_stand, laws_stand};
pub use masks::{MaskBit, UsedBy, mask_bit, mask_words, words_at};
pub use opcodes::{Layout, Opcode, OpcodeRow, OperandRule};
pub use operands::{Gradient, IdRef, ImageOperands};
