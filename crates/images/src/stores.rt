// Write: what its ids name, and whether all of it fits.
ghost use Rattle.std.specs.Prelude.{◌≡◌};
ghost use Rattle.images.specs.Used.{used_of};
ghost use Rattle.images.specs.Plans.{store_finds, store_plan, store_fitted, store_read};

use crate::options::{stored_fits, vector_size};
use crate::plans::{Split, StorePlan};
use crate::texels::{Texel, find_texel};
use memory::{BlockContext, FoundValue, IdBooks};
use records::{Error, expect};
use run::is_integer;
use words::Instruction;

// What the ids of a store name.
#[derive(Clone, Copy)]
pub struct StoreParts {
    pub texel: Texel,
    pub value: FoundValue,
}

fn find_store<B: IdBooks>(
    ctx: &BlockContext<'_, B>,
    instruction: Instruction,
) -> Result<StoreParts, Error>
    ensures { result ≡ store_finds (used_of ctx.now.lists) (B.shelf ctx.now.books.now) instruction }
{
    let ids = instruction.ids;
    let texel = find_texel(ctx, ids)?;
    let shape = texel.place.shape;
    expect(shape.allows_store(), Error::InvalidImage(ids.image.place))?;
    let value = ctx.find_value(ids.value)?;
    let fits = stored_fits(shape.class, value.inner);
    expect(fits, Error::InvalidVectorType(ids.value.place))?;
    Ok(StoreParts { texel, value })
}

impl StoreParts {
    fn plan(self, split: Split) -> StorePlan
        ensures { result ≡ store_plan self split }
    {
        StorePlan {
            split,
            image: self.texel.image,
            value: self.value.handle,
            size: vector_size(self.value.inner),
        }
    }
}

fn fit_store<B: IdBooks>(ctx: &BlockContext<'_, B>, parts: StoreParts) -> Result<StorePlan, Error>
    ensures { result ≡ store_fitted (used_of ctx.now.lists) parts }
{
    let place = parts.texel.place;
    place.expect_fits(is_integer(place.kind()))?;
    let split = place.find_split(ctx)?;
    Ok(parts.plan(split))
}

// A store: every check but that of room, in the order of the refusals.
pub fn parse_image_write<B: IdBooks>(
    ctx: &BlockContext<'_, B>,
    instruction: Instruction,
) -> Result<StorePlan, Error>
    ensures { result ≡ store_read (used_of ctx.now.lists) (B.shelf ctx.now.books.now) instruction }
{
    let parts = find_store(ctx, instruction)?;
    fit_store(ctx, parts)
}
