// Whether the operands of a sample, gather, load or Compose are of the types that it needs.
ghost use Rattle.std.specs.Prelude.{◌≡◌};
ghost use Rattle.run.specs.Statics.{known_by};
ghost use Rattle.run.specs.Rules.{layer_fits, offset_fits, float_fits, integer_fits, level_fits, sample_fits, load_fits, sample_type, load_type, composes, compose_type};

use crate::before::Before;
use crate::rules::{Miss, none_or, of_first, place_type};
use crate::statics::{answered_by, is_depth, sampled_by};
use crate::types::{FLOAT, SINT};
use records::{
    Expression, ExpressionHandle, ImageDimension, SampleLevel, ScalarKind, TypeInner, VectorSize,
};

impl Before<'_> {
    // There is a layer exactly if the image is arrayed.
    pub(crate) fn layer_fits(self, arrayed: bool, layer: Option<ExpressionHandle>) -> bool
        ensures { result ≡ layer_fits (known_by self.entry) arrayed layer }
    {
        match layer {
            Some(layer) => arrayed && self.is(layer, SINT),
            None => !arrayed,
        }
    }

    fn offset_fits(self, dim: ImageDimension, offset: Option<ExpressionHandle>) -> bool
        ensures { result ≡ offset_fits (known_by self.entry) dim offset }
    {
        none_or(offset, |offset| self.is_integer_place(offset, dim))
    }

    fn float_fits(self, operand: Option<ExpressionHandle>) -> bool
        ensures { result ≡ float_fits (known_by self.entry) operand }
    {
        none_or(operand, |operand| self.is(operand, FLOAT))
    }

    fn integer_fits(self, operand: Option<ExpressionHandle>) -> bool
        ensures { result ≡ integer_fits (known_by self.entry) operand }
    {
        none_or(operand, |operand| self.is_integer(operand))
    }

    fn level_fits(self, dim: ImageDimension, level: SampleLevel) -> bool
        ensures { result ≡ level_fits (known_by self.entry) dim level }
    {
        match level {
            SampleLevel::Auto | SampleLevel::Zero => true,
            SampleLevel::Exact(level) | SampleLevel::Bias(level) => self.is(level, FLOAT),
            SampleLevel::Gradient { x, y } => {
                let place = place_type(dim, ScalarKind::Float);
                self.is(x, place) && self.is(y, place)
            }
        }
    }

    fn sample_fits(self, e: Expression, dim: ImageDimension, arrayed: bool) -> bool
        ensures { result ≡ sample_fits (known_by self.entry) e dim arrayed }
    {
        let image = e.image;
        self.is(e.other, TypeInner::Sampler)
            && self.is(image.coordinate, place_type(dim, ScalarKind::Float))
            && self.layer_fits(arrayed, image.array_index)
            && self.offset_fits(dim, image.offset)
            && self.level_fits(dim, image.level)
            && self.float_fits(image.depth_ref)
    }

    fn load_fits(self, e: Expression, dim: ImageDimension, arrayed: bool) -> bool
        ensures { result ≡ load_fits (known_by self.entry) e dim arrayed }
    {
        let image = e.image;
        self.is_integer_place(image.coordinate, dim)
            && self.layer_fits(arrayed, image.array_index)
            && self.integer_fits(image.sample)
            && self.integer_fits(image.lod)
    }

    // What a sample or gather of an image comes to.
    pub(crate) fn sample_type(self, e: Expression, ty: TypeInner) -> Result<TypeInner, Miss>
        ensures { result ≡ sample_type (known_by self.entry) e ty }
    {
        match ty {
            TypeInner::Image {
                dim,
                arrayed,
                class,
            } if self.sample_fits(e, dim, arrayed) => Ok(sampled_by(e, class)),
            _ => Err(Miss::Lacking),
        }
    }

    pub(crate) fn load_type(self, e: Expression, ty: TypeInner) -> Result<TypeInner, Miss>
        ensures { result ≡ load_type (known_by self.entry) e ty }
    {
        match ty {
            TypeInner::Image {
                dim,
                arrayed,
                class,
            } if self.load_fits(e, dim, arrayed) => Ok(answered_by(is_depth(class), class)),
            _ => Err(Miss::Lacking),
        }
    }

    fn composes(self, size: VectorSize, components: [ExpressionHandle; 4], kind: ScalarKind) -> bool
        ensures { result ≡ composes (known_by self.entry) size components kind }
    {
        of_first(
            size,
            components,
            |component| self.is(component, TypeInner::Scalar(kind)),
        )
    }

    pub(crate) fn compose_type(self, e: Expression, ty: TypeInner) -> Result<TypeInner, Miss>
        ensures { result ≡ compose_type (known_by self.entry) e.size e.components ty }
    {
        match ty {
            TypeInner::Vector { size, kind }
                if size == e.size && self.composes(size, e.components, kind) => Ok(ty),
            _ => Err(Miss::Lacking),
        }
    }
}
