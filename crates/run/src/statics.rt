// The type of an expression from the records alone, along one path of bases.
ghost use Rattle.std.specs.Prelude.{◌≡◌};
ghost use Rattle.std.specs.List.{slice_get};
ghost use Rattle.run.specs.Envs.{env_of};
ghost use Rattle.run.specs.Rules.{literal_type, is_depth, answered_by, sampled_by};
ghost use Rattle.run.specs.Statics.{type_by, element_type, sampled_type, loaded_type, static_tag, static};

use crate::lists::Lists;
use crate::types::{FLOAT, SINT, kind_in, texel_type};
use records::{
    Expression, ExpressionHandle, ExpressionTag, ImageClass, Literal, ScalarKind, TypeHandle,
    TypeInner,
};

pub fn literal_type(literal: Literal) -> TypeInner
    ensures { result ≡ literal_type literal }
{
    match literal {
        Literal::U32(_) => TypeInner::Scalar(ScalarKind::Uint),
        Literal::I32(_) => TypeInner::Scalar(ScalarKind::Sint),
        Literal::F32(_) => TypeInner::Scalar(ScalarKind::Float),
    }
}

pub fn is_depth(class: ImageClass) -> bool
    ensures { result ≡ is_depth class }
{
    matches!(class, ImageClass::Depth { .. })
}

pub fn answered_by(one: bool, class: ImageClass) -> TypeInner
    ensures { result ≡ answered_by one class }
{
    if one { FLOAT } else { texel_type(class) }
}

// The type of what a sample or gather of an image of a class comes to.
pub fn sampled_by(e: Expression, class: ImageClass) -> TypeInner
    ensures { result ≡ sampled_by e class }
{
    let one = (is_depth(class) || e.image.depth_ref.is_some()) && e.image.gather.is_none();
    answered_by(one, class)
}

fn sampled_type(e: Expression, ty: TypeInner) -> Option<TypeInner>
    ensures { result ≡ sampled_type e ty }
{
    match ty {
        TypeInner::Image { class, .. } => Some(sampled_by(e, class)),
        _ => None,
    }
}

fn loaded_type(ty: TypeInner) -> Option<TypeInner>
    ensures { result ≡ loaded_type ty }
{
    match ty {
        TypeInner::Image { class, .. } => Some(answered_by(is_depth(class), class)),
        _ => None,
    }
}

impl Lists<'_> {
    fn expression_at(self, handle: ExpressionHandle) -> Option<Expression>
        ensures { result ≡ slice_get self.entry.expressions.now handle.index }
    {
        self.expressions.get(handle.index as usize).copied()
    }

    pub(crate) fn type_by(self, handle: Option<TypeHandle>) -> Option<TypeInner>
        ensures { result ≡ type_by (env_of self.entry) handle }
    {
        self.type_at(handle?)
    }

    pub(crate) fn element_type(self, base: TypeInner) -> Option<TypeInner>
        ensures { result ≡ element_type (env_of self.entry) base }
    {
        match base {
            TypeInner::BindingArray { base } => self.type_at(base),
            _ => None,
        }
    }

    // The type of a record, where it states none, from the type of its base.
    fn static_tag(self, base: Option<TypeInner>, e: Expression) -> Option<TypeInner>
        ensures { result ≡ static_tag (env_of self.entry) base e e.tag }
    {
        match (e.tag, base) {
            (ExpressionTag::GlobalVariable, _) => self.type_by(self.variable_at(e.variable)),
            (ExpressionTag::FunctionArgument, _) => self.type_by(self.argument_at(e.argument)),
            (ExpressionTag::Constant, _) => self.constant_at(e.constant).map(literal_type),
            (ExpressionTag::Supplied | ExpressionTag::Compose, _) => self.type_at(e.ty),
            (ExpressionTag::Divide | ExpressionTag::Round, _) => Some(FLOAT),
            (ExpressionTag::As, _) => Some(SINT),
            (ExpressionTag::Access, Some(base)) => self.element_type(base),
            (ExpressionTag::AccessIndex, Some(base)) => Some(TypeInner::Scalar(kind_in(base))),
            (ExpressionTag::Splat | ExpressionTag::Swizzle, Some(base)) => {
                Some(TypeInner::Vector {
                    size: e.size,
                    kind: kind_in(base),
                })
            }
            (ExpressionTag::ImageSample, Some(base)) => sampled_type(e, base),
            (ExpressionTag::ImageLoad, Some(base)) => loaded_type(base),
            _ => None,
        }
    }
}

// The type of an expression: its stated type, or what its base gives it.
pub fn static_type(lists: Lists<'_>, handle: ExpressionHandle) -> Option<TypeInner>
    ensures { result ≡ static (env_of lists.entry) lists.entry.expressions.now handle.index }
{
    let e = lists.expression_at(handle)?;
    if let Some(result) = e.result {
        return lists.type_at(result);
    }
    let below = if e.base.index < handle.index {
        static_type(lists, e.base)
    } else {
        None
    };
    lists.static_tag(below, e)
}
