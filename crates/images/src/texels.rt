// The texel of a load or store.
ghost use Rattle.std.specs.Prelude.{◌≡◌};
ghost use Rattle.images.specs.Plans.{texel_for};
ghost use Rattle.images.specs.Used.{used_of};

use crate::find::{get_image_expr_ty, inner_at};
use crate::options::expect_image;
use crate::places::ImagePlace;
use memory::{BlockContext, IdBooks};
use records::{Error, ExpressionHandle};
use words::Ids;

#[derive(Clone, Copy)]
pub struct Texel {
    pub image: ExpressionHandle,
    pub place: ImagePlace,
}

pub fn find_texel<B: IdBooks>(ctx: &BlockContext<'_, B>, ids: Ids) -> Result<Texel, Error>
    ensures { result ≡ texel_for (used_of ctx.now.lists) (B.shelf ctx.now.books.now) ids }
{
    let image = ctx.find_value(ids.image)?;
    let ty = get_image_expr_ty(ctx.lists, ids.image.place, image.handle)?;
    let coordinate = ctx.find_value(ids.coordinate)?;
    let inner = inner_at(ctx.lists, ty)?;
    let shape = expect_image(ids.image.place, inner)?;
    Ok(Texel {
        image: image.handle,
        place: ImagePlace {
            shape,
            project: false,
            coordinate,
            word: ids.coordinate.place,
        },
    })
}
