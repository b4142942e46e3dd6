// Tests on types, and what an operation makes of the types of its operands.
ghost use Rattle.std.specs.Prelude.{◌≡◌};
ghost use Rattle.records.specs.declared.types.TypeInner.TheVariants.{Vector};
ghost use Rattle.records.specs.declared.types.VectorSize.TheVariants.{Quad};
ghost use Rattle.run.specs.Types.{scalar_kind, is_integer, is_float, count_in, class_kind, kind_in, part_type};

use records::{ImageClass, ScalarKind, TypeInner, VectorSize};

pub const FLOAT: TypeInner = TypeInner::Scalar(ScalarKind::Float);

pub const SINT: TypeInner = TypeInner::Scalar(ScalarKind::Sint);

pub fn scalar_kind(ty: TypeInner) -> Option<ScalarKind>
    ensures { result ≡ scalar_kind ty }
{
    match ty {
        TypeInner::Scalar(kind) => Some(kind),
        _ => None,
    }
}

pub fn is_integer(kind: ScalarKind) -> bool
    ensures { result ≡ is_integer kind }
{
    matches!(kind, ScalarKind::Sint | ScalarKind::Uint)
}

pub fn is_float(kind: ScalarKind) -> bool
    ensures { result ≡ is_float kind }
{
    kind == ScalarKind::Float
}

pub fn count_in(ty: TypeInner) -> u32
    ensures { result ≡ count_in ty }
{
    match ty {
        TypeInner::Scalar(_) => 1,
        TypeInner::Vector { size, .. } => size.count(),
        _ => 0,
    }
}

pub fn class_kind(class: ImageClass) -> ScalarKind
    ensures { result ≡ class_kind class }
{
    match class {
        ImageClass::Sampled { kind, .. } | ImageClass::Storage { kind } => kind,
        ImageClass::Depth { .. } => ScalarKind::Float,
    }
}

// What a texel of an image comes to: four of its kind.
pub fn texel_type(class: ImageClass) -> TypeInner
    ensures { result ≡ Vector Quad (class_kind class) }
{
    TypeInner::Vector {
        size: VectorSize::Quad,
        kind: class_kind(class),
    }
}

// Of an image the kind of its texels.
pub fn kind_in(ty: TypeInner) -> ScalarKind
    ensures { result ≡ kind_in ty }
{
    match ty {
        TypeInner::Scalar(kind) | TypeInner::Vector { kind, .. } => kind,
        TypeInner::Image { class, .. } => class_kind(class),
        TypeInner::Sampler | TypeInner::BindingArray { .. } => ScalarKind::Float,
    }
}

// The type of one component of a vector.
pub fn part_type(index: u32, ty: TypeInner) -> Option<TypeInner>
    ensures { result ≡ part_type index ty }
{
    match ty {
        TypeInner::Vector { size, kind } if index < size.count() => Some(TypeInner::Scalar(kind)),
        _ => None,
    }
}
