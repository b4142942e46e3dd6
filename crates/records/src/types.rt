// The types of values, images and samplers. All scalars have 32 bits.
use crate::handles::TypeHandle;

#[derive(Clone, Copy, PartialEq, Eq)]
pub enum ScalarKind {
    Sint,
    Uint,
    Float,
    Bool,
}

#[derive(Clone, Copy, PartialEq, Eq)]
pub enum VectorSize {
    Bi,
    Tri,
    Quad,
}

#[derive(Clone, Copy, PartialEq, Eq)]
pub enum ImageDimension {
    D1,
    D2,
    D3,
    Cube,
}

#[derive(Clone, Copy, PartialEq, Eq)]
pub enum ImageClass {
    Sampled { kind: ScalarKind, multi: bool },
    Depth { multi: bool },
    Storage { kind: ScalarKind },
}

// What a type is. A binding array is of an earlier image, sampler or binding array.
#[derive(Clone, Copy, PartialEq, Eq)]
pub enum TypeInner {
    Scalar(ScalarKind),
    Vector {
        size: VectorSize,
        kind: ScalarKind,
    },
    Image {
        dim: ImageDimension,
        arrayed: bool,
        class: ImageClass,
    },
    Sampler,
    BindingArray {
        base: TypeHandle,
    },
}
