// OpSampledImage: an image and a sampler by one id.
ghost use Rattle.std.specs.Prelude.{◌≡◌};
ghost use Rattle.images.specs.Plans.{couple_read};
ghost use Rattle.images.specs.Used.{used_of};

use memory::{BlockContext, IdBooks};
use records::{Error, LookupSampledImage, expect};
use words::Instruction;

// A couple: every check but that of room, in the order of the refusals.
pub fn parse_image_couple<B: IdBooks>(
    ctx: &BlockContext<'_, B>,
    instruction: Instruction,
) -> Result<LookupSampledImage, Error>
    ensures { result ≡ couple_read (used_of ctx.now.lists) (B.shelf ctx.now.books.now) instruction }
{
    let ids = instruction.ids;
    let new = ctx.books.is_new_couple(ids.result.id);
    expect(new, Error::InvalidResultId(ids.result.place))?;
    let image = ctx.find_value(ids.image)?;
    let sampler = ctx.find_value(ids.sampler)?;
    Ok(LookupSampledImage {
        image: image.handle,
        sampler: sampler.handle,
    })
}
