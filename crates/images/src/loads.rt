// Fetch and Read: what their ids name, and whether all of it fits.
ghost use Rattle.std.specs.Prelude.{◌≡◌};
ghost use Rattle.images.specs.Used.{used_of};
ghost use Rattle.images.specs.Plans.{load_finds, load_plan, load_fitted, load_read};

use crate::operands::{FoundOperands, find_operands, handle_of};
use crate::options::{load_result_fits, vector_size};
use crate::plans::{LoadPlan, Split};
use crate::texels::{Texel, find_texel};
use memory::{BlockContext, FoundType, IdBooks};
use records::{Error, expect};
use run::{is_depth, is_integer};
use words::Instruction;

// What the ids of a load name.
#[derive(Clone, Copy)]
pub struct LoadParts {
    pub operands: FoundOperands,
    pub texel: Texel,
    pub result: FoundType,
}

fn find_load<B: IdBooks>(
    ctx: &BlockContext<'_, B>,
    instruction: Instruction,
) -> Result<LoadParts, Error>
    ensures { result ≡ load_finds (used_of ctx.now.lists) (B.shelf ctx.now.books.now) instruction }
{
    let ids = instruction.ids;
    ctx.books.expect_new_value(ids.result)?;
    let operands = find_operands(ctx, instruction.operands)?;
    let texel = find_texel(ctx, ids)?;
    let allowed = texel.place.shape.allows_load();
    expect(allowed, Error::InvalidImage(ids.image.place))?;
    let result = ctx.find_type(ids.result_type)?;
    Ok(LoadParts {
        operands,
        texel,
        result,
    })
}

impl LoadParts {
    fn plan(self, split: Split) -> LoadPlan
        ensures { result ≡ load_plan self split }
    {
        let class = self.texel.place.shape.class;
        LoadPlan {
            split,
            image: self.texel.image,
            sample: handle_of(self.operands.sample),
            lod: handle_of(self.operands.lod),
            splat: if is_depth(class) {
                vector_size(self.result.inner)
            } else {
                None
            },
            result: self.result.handle,
        }
    }
}

fn fit_load<B: IdBooks>(
    ctx: &BlockContext<'_, B>,
    instruction: Instruction,
    parts: LoadParts,
) -> Result<LoadPlan, Error>
    ensures { result ≡ load_fitted (used_of ctx.now.lists) instruction parts }
{
    let place = parts.texel.place;
    parts.operands.expect_types(true, place.shape.dim)?;
    place.expect_fits(is_integer(place.kind()))?;
    let fits = load_result_fits(place.shape.class, parts.result.inner);
    expect(fits, Error::InvalidType(instruction.ids.result_type.place))?;
    let split = place.find_split(ctx)?;
    Ok(parts.plan(split))
}

// A load: every check but that of room, in the order of the refusals.
pub fn parse_image_load<B: IdBooks>(
    ctx: &BlockContext<'_, B>,
    instruction: Instruction,
) -> Result<LoadPlan, Error>
    ensures { result ≡ load_read (used_of ctx.now.lists) (B.shelf ctx.now.books.now) instruction }
{
    let parts = find_load(ctx, instruction)?;
    fit_load(ctx, instruction, parts)
}
