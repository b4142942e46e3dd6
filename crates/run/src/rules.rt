// What each expression needs, and the type of what it comes to. No value is looked at.
ghost use Rattle.std.specs.Prelude.{◌≡◌, Bool};
ghost use Rattle.run.specs.Types.{none_or};
ghost use Rattle.run.specs.Rules.{is_int, of_first, texture_type, number_type, splat_type, has_pattern, swizzle_type, cast_type, place_type};
ghost use Rattle.records.specs.declared.types.TypeInner.TheVariants.{Scalar};

use crate::types::{SINT, scalar_kind};
use records::{ImageDimension, ScalarKind, SwizzleComponent, TypeInner, VectorSize};

// Why an expression has no type.
#[derive(Clone, Copy)]
pub enum Miss {
    // it needs a value that is not worked out, or a component or type that an operand lacks
    Lacking,
    // it names a number outside the used lists
    Outside,
}

pub fn is_integer_scalar(ty: Option<TypeInner>) -> bool
    ensures { result ≡ is_int ty Scalar }
{
    matches!(
        ty,
        Some(TypeInner::Scalar(ScalarKind::Sint | ScalarKind::Uint))
    )
}

// The type of a place in an image of a dimension.
pub fn place_type(dim: ImageDimension, kind: ScalarKind) -> TypeInner
    ensures { result ≡ place_type dim kind }
{
    let size = match dim {
        ImageDimension::D1 => return TypeInner::Scalar(kind),
        ImageDimension::D2 => VectorSize::Bi,
        ImageDimension::D3 | ImageDimension::Cube => VectorSize::Tri,
    };
    TypeInner::Vector { size, kind }
}

pub fn is_integer_place(ty: Option<TypeInner>, dim: ImageDimension) -> bool
    ensures { result ≡ is_int ty (place_type dim) }
{
    ty == Some(place_type(dim, ScalarKind::Sint)) || ty == Some(place_type(dim, ScalarKind::Uint))
}

pub fn texture_type(ty: TypeInner) -> Option<TypeInner>
    ensures { result ≡ texture_type ty }
{
    match ty {
        TypeInner::Scalar(_) | TypeInner::Vector { .. } => None,
        _ => Some(ty),
    }
}

pub fn number_type(ty: TypeInner) -> Option<TypeInner>
    ensures { result ≡ number_type ty }
{
    match ty {
        TypeInner::Scalar(_) | TypeInner::Vector { .. } => Some(ty),
        _ => None,
    }
}

pub fn splat_type(size: VectorSize, ty: TypeInner) -> Option<TypeInner>
    ensures { result ≡ splat_type size ty }
{
    let kind = scalar_kind(ty)?;
    Some(TypeInner::Vector { size, kind })
}

// Whether what may be missing is missing, or passes a test.
pub(crate) fn none_or<T: Copy, F: Fn(T) -> bool>(item: Option<T>, passes: F) -> bool
    requires { F.IsAlwaysCallable passes }
    ensures { (test : T → Bool) → ((x : T) (r : Bool) → F.post passes x r → r ≡ test x) → result ≡ none_or test item }
{
    match item {
        Some(item) => passes(item),
        None => true,
    }
}

// Whether the first of four, as many as the size says, pass a test.
pub(crate) fn of_first<T: Copy, F: Fn(T) -> bool>(size: VectorSize, four: [T; 4], passes: F) -> bool
    requires { F.IsAlwaysCallable passes }
    ensures { (d : T) (test : T → Bool) → ((x : T) (r : Bool) → F.post passes x r → r ≡ test x) → result ≡ of_first size four d test }
{
    let [a, b, c, d] = four;
    (passes(a) && passes(b)) && (size.count() < 3 || passes(c)) && (size.count() < 4 || passes(d))
}

// Whether a vector of `count` components has those that the first `size` of a pattern name.
fn has_pattern(count: u32, size: VectorSize, pattern: [SwizzleComponent; 4]) -> bool
    ensures { result ≡ has_pattern count size pattern }
{
    of_first(size, pattern, |component| component.index() < count)
}

pub fn swizzle_type(
    size: VectorSize,
    pattern: [SwizzleComponent; 4],
    ty: TypeInner,
) -> Option<TypeInner>
    ensures { result ≡ swizzle_type size pattern ty }
{
    match ty {
        TypeInner::Vector { size: from, kind } if has_pattern(from.count(), size, pattern) => {
            Some(TypeInner::Vector { size, kind })
        }
        _ => None,
    }
}

pub fn cast_type(ty: TypeInner) -> Option<TypeInner>
    ensures { result ≡ cast_type ty }
{
    match ty {
        TypeInner::Scalar(ScalarKind::Sint | ScalarKind::Uint | ScalarKind::Float) => { Some(SINT) }
        _ => None,
    }
}
