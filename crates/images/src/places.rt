// A place in an image: whether a coordinate fits it, and how it is taken apart.
ghost use Rattle.std.specs.Prelude.{◌≡◌};
ghost use Rattle.images.specs.Places.{has_more, extra_of, place_kind, place_fits, composed, vector_for, split_for};
ghost use Rattle.images.specs.Used.{used_of};

use crate::options::{ImageShape, composed_size, has_components, place_size};
use crate::plans::{ExtraCoordinate, Split};
use memory::{BlockContext, FoundValue, IdBooks};
use records::{Error, ScalarKind, TypeHandle, TypeInner, VectorSize, expect};
use run::{count_in, is_float, kind_in};

#[derive(Clone, Copy)]
pub struct ImagePlace {
    pub shape: ImageShape,
    // whether the coordinate is divided by its last component
    pub project: bool,
    pub coordinate: FoundValue,
    // the place of the coordinate's word
    pub word: usize,
}

impl ImagePlace {
    // Whether a component follows those of the place.
    fn has_more(self) -> bool
        ensures { result ≡ has_more self }
    {
        self.shape.arrayed || self.project
    }

    // What that component is.
    fn extra(self) -> ExtraCoordinate
        ensures { result ≡ extra_of self.project self.shape.arrayed }
    {
        if self.project {
            ExtraCoordinate::Projection
        } else if self.shape.arrayed {
            ExtraCoordinate::ArrayLayer
        } else {
            ExtraCoordinate::Garbage
        }
    }

    // The kind of the coordinate: Float for samples and gathers, an integer for loads and stores.
    pub fn kind(self) -> ScalarKind
        ensures { result ≡ place_kind self }
    {
        kind_in(self.coordinate.inner)
    }

    // The coordinate has to be of a right kind, and to have components enough.
    pub fn expect_fits(self, kind_right: bool) -> Result<(), Error>
        ensures { result ≡ place_fits kind_right self }
    {
        let wide = has_components(self.shape.dim, self.has_more(), self.coordinate.inner);
        expect(kind_right && wide, Error::InvalidCoordinate(self.word))
    }

    // The size of the vector that the place is put together to, if it is.
    fn composed(self) -> Option<VectorSize>
        ensures { result ≡ composed self }
    {
        if self.has_more() {
            composed_size(self.shape.dim)
        } else {
            None
        }
    }

    // The type of that vector, which has to be in the list of types; 0 where there is none.
    fn find_vector<B: IdBooks>(self, ctx: &BlockContext<'_, B>) -> Result<TypeHandle, Error>
        ensures { result ≡ vector_for (used_of ctx.now.lists) self }
    {
        let Some(size) = self.composed() else {
            return Ok(TypeHandle { index: 0 });
        };
        let kind = self.kind();
        let found = ctx.first_equal(TypeInner::Vector { size, kind });
        let vector = found.map(|index| TypeHandle { index });
        vector.ok_or(Error::MissingType(self.word))
    }

    pub fn find_split<B: IdBooks>(self, ctx: &BlockContext<'_, B>) -> Result<Split, Error>
        ensures { result ≡ split_for (used_of ctx.now.lists) self }
    {
        let vector = self.find_vector(ctx)?;
        let coordinate = self.coordinate;
        let dim = self.shape.dim;
        Ok(Split {
            base: coordinate.handle,
            dim,
            extra: self.extra(),
            float: is_float(self.kind()),
            exact: count_in(coordinate.inner) == place_size(dim),
            vector,
        })
    }
}
