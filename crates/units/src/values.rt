// A value is what an expression comes to: components of one kind, or a reference to a texture or sampler.
ghost use Rattle.std.specs.Prelude.{◌≡◌};
ghost use Rattle.units.specs.Values.{count_of, width_of, kind_of, float_scalar, shape, as_handle, type_of};

use records::{FunctionArgumentHandle, GlobalVariableHandle, ScalarKind, TypeInner, VectorSize};

// How many components there are.
#[derive(Clone, Copy)]
pub enum Width {
    One,
    Two,
    Three,
    Four,
}

// Four lanes of one kind. Those past the width are zero.
#[derive(Clone, Copy)]
pub enum Lanes {
    Float([f32; 4]),
    Sint([i32; 4]),
    Uint([u32; 4]),
    Bool([bool; 4]),
}

// A scalar, or a vector.
#[derive(Clone, Copy)]
pub struct Components {
    pub width: Width,
    pub lanes: Lanes,
}

#[derive(Clone, Copy)]
pub enum Root {
    Variable(GlobalVariableHandle),
    Argument(FunctionArgumentHandle),
}

// A variable or argument, and the elements taken of it: how many, and the first four indexes by their bits.
#[derive(Clone, Copy)]
pub struct Resource {
    pub root: Root,
    pub depth: u32,
    pub indexes: [u32; 4],
}

// A resource and its type.
#[derive(Clone, Copy)]
pub struct Reference {
    pub resource: Resource,
    pub ty: TypeInner,
}

#[derive(Clone, Copy)]
pub enum Value {
    Number(Components),
    Texture(Reference),
}

impl Width {
    pub fn count(self) -> u32
        ensures { result ≡ count_of self }
    {
        match self {
            Width::One => 1,
            Width::Two => 2,
            Width::Three => 3,
            Width::Four => 4,
        }
    }
}

impl From<VectorSize> for Width {
    ghost from_gives = { λ size width. width ≡ width_of size };

    fn from(size: VectorSize) -> Width {
        match size {
            VectorSize::Bi => Width::Two,
            VectorSize::Tri => Width::Three,
            VectorSize::Quad => Width::Four,
        }
    }
}

impl Lanes {
    pub fn kind(self) -> ScalarKind
        ensures { result ≡ kind_of self }
    {
        match self {
            Lanes::Float(_) => ScalarKind::Float,
            Lanes::Sint(_) => ScalarKind::Sint,
            Lanes::Uint(_) => ScalarKind::Uint,
            Lanes::Bool(_) => ScalarKind::Bool,
        }
    }
}

impl Components {
    // A scalar of kind Float.
    pub fn float(x: f32) -> Components
        ensures { result ≡ float_scalar x }
    {
        Components {
            width: Width::One,
            lanes: Lanes::Float([x, 0.0, 0.0, 0.0]),
        }
    }
}

// The type of components.
pub fn shape_of(width: Width, kind: ScalarKind) -> TypeInner
    ensures { result ≡ shape width kind }
{
    let size = match width {
        Width::One => return TypeInner::Scalar(kind),
        Width::Two => VectorSize::Bi,
        Width::Three => VectorSize::Tri,
        Width::Four => VectorSize::Quad,
    };
    TypeInner::Vector { size, kind }
}

// A reference is never of a scalar or a vector.
fn as_handle(ty: TypeInner) -> TypeInner
    ensures { result ≡ as_handle ty }
{
    match ty {
        TypeInner::Scalar(_) | TypeInner::Vector { .. } => TypeInner::Sampler,
        _ => ty,
    }
}

impl Value {
    pub fn ty(self) -> TypeInner
        ensures { result ≡ type_of self }
    {
        match self {
            Value::Number(components) => shape_of(components.width, components.lanes.kind()),
            Value::Texture(reference) => as_handle(reference.ty),
        }
    }
}
