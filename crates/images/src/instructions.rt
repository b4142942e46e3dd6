// One instruction: which of the four sorts it is, and its plan.
ghost use Rattle.std.specs.Prelude.{◌≡◌};
ghost use Rattle.images.specs.Plans.{plan_for};
ghost use Rattle.images.specs.Used.{used_of};

use crate::couples::parse_image_couple;
use crate::loads::parse_image_load;
use crate::plans::{LoadPlan, SamplePlan, StorePlan};
use crate::samples::parse_image_sample;
use crate::stores::parse_image_write;
use memory::{BlockContext, IdBooks};
use records::{Error, LookupSampledImage};
use words::{Instruction, OperandRule};

// What an instruction is to append.
#[derive(Clone, Copy)]
pub enum Plan {
    Couple(LookupSampledImage),
    Sample(SamplePlan),
    Load(LoadPlan),
    Store(StorePlan),
}

// Every check of an instruction but that of room, in the order of the refusals. Nothing is written.
pub fn parse_image_instruction<B: IdBooks>(
    ctx: &BlockContext<'_, B>,
    instruction: Instruction,
) -> Result<Plan, Error>
    ensures { result ≡ plan_for (used_of ctx.now.lists) (B.shelf ctx.now.books.now) instruction }
{
    match instruction.opcode.row().rule {
        OperandRule::Never => parse_image_couple(ctx, instruction).map(Plan::Couple),
        OperandRule::Implicit | OperandRule::Explicit | OperandRule::Gather => {
            parse_image_sample(ctx, instruction).map(Plan::Sample)
        }
        OperandRule::Load => parse_image_load(ctx, instruction).map(Plan::Load),
        OperandRule::Store => parse_image_write(ctx, instruction).map(Plan::Store),
    }
}
