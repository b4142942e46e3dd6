// The first pass at one expression: its type, or why it has none.
ghost use Rattle.std.specs.Prelude.{◌≡◌};
ghost use Rattle.run.specs.Envs.{env_of};
ghost use Rattle.run.specs.Statics.{known_by};
ghost use Rattle.run.specs.Rules.{resource, element, made_of, rule_of, result_fits, seen};

use crate::before::Before;
use crate::lists::Lists;
use crate::rules::{
    Miss, cast_type, is_integer_scalar, number_type, splat_type, swizzle_type, texture_type,
};
use crate::statics::literal_type;
use crate::types::{FLOAT, part_type};
use records::{Expression, ExpressionTag, TypeHandle, TypeInner};

impl Lists<'_> {
    // A texture, a sampler or an array of them, by the handle of its type.
    fn resource(self, handle: Option<TypeHandle>) -> Result<TypeInner, Miss>
        ensures { result ≡ resource (env_of self.entry) handle }
    {
        let ty = self.type_by(handle).ok_or(Miss::Outside)?;
        texture_type(ty).ok_or(Miss::Lacking)
    }

    fn element(self, base: TypeInner, index: TypeInner) -> Result<TypeInner, Miss>
        ensures { result ≡ element (env_of self.entry) base index }
    {
        match base {
            TypeInner::BindingArray { base } if is_integer_scalar(Some(index)) => {
                self.resource(Some(base))
            }
            _ => Err(Miss::Lacking),
        }
    }

    fn result_fits(self, stated: Option<TypeHandle>, ty: TypeInner) -> Result<TypeInner, Miss>
        ensures { result ≡ result_fits (env_of self.entry) stated ty }
    {
        let Some(handle) = stated else {
            return Ok(ty);
        };
        if ty == self.type_at(handle).ok_or(Miss::Outside)? {
            Ok(ty)
        } else {
            Err(Miss::Lacking)
        }
    }
}

impl Before<'_> {
    // A record that is made of an expression of the type `base`.
    fn made_of(self, e: Expression, base: TypeInner) -> Result<TypeInner, Miss>
        ensures { result ≡ made_of (env_of self.entry.lists) (known_by self.entry) e base e.tag }
    {
        let ty = match e.tag {
            ExpressionTag::Access => {
                let index = self.type_of(e.other).ok_or(Miss::Lacking)?;
                return self.lists.element(base, index);
            }
            ExpressionTag::AccessIndex => part_type(e.index, base),
            ExpressionTag::Splat => splat_type(e.size, base),
            ExpressionTag::Swizzle => swizzle_type(e.size, e.pattern, base),
            ExpressionTag::As => cast_type(base),
            ExpressionTag::ImageSample => return self.sample_type(e, base),
            ExpressionTag::ImageLoad => return self.load_type(e, base),
            _ => None,
        };
        ty.ok_or(Miss::Lacking)
    }

    fn rule(self, e: Expression) -> Result<TypeInner, Miss>
        ensures { result ≡ rule_of (env_of self.entry.lists) (known_by self.entry) e }
    {
        let lists = self.lists;
        match e.tag {
            ExpressionTag::GlobalVariable => lists.resource(lists.variable_at(e.variable)),
            ExpressionTag::FunctionArgument => lists.resource(lists.argument_at(e.argument)),
            ExpressionTag::Constant => {
                let literal = lists.constant_at(e.constant).ok_or(Miss::Outside)?;
                Ok(literal_type(literal))
            }
            ExpressionTag::Supplied => {
                let ty = lists.type_at(e.ty).ok_or(Miss::Outside)?;
                number_type(ty).ok_or(Miss::Lacking)
            }
            ExpressionTag::Compose => {
                let ty = lists.type_at(e.ty).ok_or(Miss::Outside)?;
                self.compose_type(e, ty)
            }
            ExpressionTag::Divide if self.is(e.base, FLOAT) && self.is(e.other, FLOAT) => Ok(FLOAT),
            ExpressionTag::Round if self.is(e.base, FLOAT) => Ok(FLOAT),
            ExpressionTag::Divide | ExpressionTag::Round => Err(Miss::Lacking),
            ExpressionTag::Access
            | ExpressionTag::AccessIndex
            | ExpressionTag::Splat
            | ExpressionTag::Swizzle
            | ExpressionTag::As
            | ExpressionTag::ImageSample
            | ExpressionTag::ImageLoad => {
                let base = self.type_of(e.base).ok_or(Miss::Lacking)?;
                self.made_of(e, base)
            }
        }
    }

    // What is seen of expression i, of which this is the record.
    pub fn see(self, e: Expression) -> Result<TypeInner, Miss>
        ensures { result ≡ seen (env_of self.entry.lists) (known_by self.entry) e }
    {
        if !self.lists.has_result(e.result) || !self.lists.has_numbers(e) {
            return Err(Miss::Outside);
        }
        let ty = self.rule(e)?;
        self.lists.result_fits(e.result, ty)
    }
}
