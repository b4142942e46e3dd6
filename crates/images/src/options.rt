// What each opcode does, which images it may use, and of which types its operands are.
ghost use Rattle.std.specs.Prelude.{◌≡◌};
ghost use Rattle.images.specs.Rules.{sampling_of, place_size, is_cube, gatherable, is_storage, comparable, shape_of, array_base, sample_allows, load_allows, store_allows, is_float_scalar, grad_fits, offset_fits, is_integer_scalar, has_components, is_number, sample_result, load_result_fits, stored_fits, vector_size, composed_size};
ghost use Rattle.images.specs.Plans.{shape_for};

use records::{Error, ImageClass, ImageDimension, ScalarKind, TypeHandle, TypeInner, VectorSize};
use run::{
    class_kind, count_in, is_depth, is_float, is_integer_place, is_integer_scalar, kind_in,
    place_type, texel_type,
};
use words::Opcode;

// Options of a sampling operation.
#[derive(Clone, Copy)]
pub struct SamplingOptions {
    // the place is divided by the component after it
    pub project: bool,
    // a texel is compared with a reference
    pub compare: bool,
    // one component of four texels is taken
    pub gather: bool,
}

// The parts of an image type.
#[derive(Clone, Copy)]
pub struct ImageShape {
    pub dim: ImageDimension,
    pub arrayed: bool,
    pub class: ImageClass,
}

fn projects(opcode: Opcode) -> bool
    ensures { result ≡ (sampling_of opcode).project }
{
    matches!(
        opcode,
        Opcode::ImageSampleProjImplicitLod
            | Opcode::ImageSampleProjExplicitLod
            | Opcode::ImageSampleProjDrefImplicitLod
            | Opcode::ImageSampleProjDrefExplicitLod
    )
}

fn compares(opcode: Opcode) -> bool
    ensures { result ≡ (sampling_of opcode).compare }
{
    matches!(
        opcode,
        Opcode::ImageSampleDrefImplicitLod
            | Opcode::ImageSampleDrefExplicitLod
            | Opcode::ImageSampleProjDrefImplicitLod
            | Opcode::ImageSampleProjDrefExplicitLod
            | Opcode::ImageDrefGather
    )
}

fn gathers(opcode: Opcode) -> bool
    ensures { result ≡ (sampling_of opcode).gather }
{
    matches!(opcode, Opcode::ImageGather | Opcode::ImageDrefGather)
}

pub fn sampling_of(opcode: Opcode) -> SamplingOptions
    ensures { result ≡ sampling_of opcode }
{
    SamplingOptions {
        project: projects(opcode),
        compare: compares(opcode),
        gather: gathers(opcode),
    }
}

// How many components a place in an image has.
pub fn place_size(dim: ImageDimension) -> u32
    ensures { result ≡ place_size dim }
{
    match dim {
        ImageDimension::D1 => 1,
        ImageDimension::D2 => 2,
        ImageDimension::D3 | ImageDimension::Cube => 3,
    }
}

fn is_cube(dim: ImageDimension) -> bool
    ensures { result ≡ is_cube dim }
{
    dim == ImageDimension::Cube
}

fn gatherable(dim: ImageDimension) -> bool
    ensures { result ≡ gatherable dim }
{
    matches!(dim, ImageDimension::D2 | ImageDimension::Cube)
}

fn is_storage(class: ImageClass) -> bool
    ensures { result ≡ is_storage class }
{
    matches!(class, ImageClass::Storage { .. })
}

fn comparable(class: ImageClass) -> bool
    ensures { result ≡ comparable class }
{
    match class {
        ImageClass::Sampled { kind, multi } => is_float(kind) && !multi,
        ImageClass::Depth { .. } => true,
        ImageClass::Storage { .. } => false,
    }
}

pub fn shape_of(ty: TypeInner) -> Option<ImageShape>
    ensures { result ≡ shape_of ty }
{
    match ty {
        TypeInner::Image {
            dim,
            arrayed,
            class,
        } => Some(ImageShape {
            dim,
            arrayed,
            class,
        }),
        _ => None,
    }
}

// A type that has to be an image, whose word stands at a place.
pub fn expect_image(place: usize, ty: TypeInner) -> Result<ImageShape, Error>
    ensures { result ≡ shape_for place ty }
{
    shape_of(ty).ok_or(Error::InvalidImage(place))
}

// What a binding array is an array of.
pub fn array_base(ty: TypeInner) -> Option<TypeHandle>
    ensures { result ≡ array_base ty }
{
    match ty {
        TypeInner::BindingArray { base } => Some(base),
        _ => None,
    }
}

impl SamplingOptions {
    pub fn allows(self, shape: ImageShape) -> bool
        ensures { result ≡ sample_allows self shape }
    {
        !is_storage(shape.class)
            && (!self.project || (!shape.arrayed && !is_cube(shape.dim)))
            && (!self.gather || gatherable(shape.dim))
            && (!self.compare || comparable(shape.class))
    }

    // The type that the result must have.
    pub fn result(self, class: ImageClass) -> TypeInner
        ensures { result ≡ sample_result self class }
    {
        if self.compare && !self.gather {
            TypeInner::Scalar(ScalarKind::Float)
        } else {
            texel_type(class)
        }
    }
}

impl ImageShape {
    pub fn allows_load(self) -> bool
        ensures { result ≡ load_allows self }
    {
        !is_cube(self.dim)
    }

    pub fn allows_store(self) -> bool
        ensures { result ≡ store_allows self }
    {
        !is_cube(self.dim) && is_storage(self.class)
    }
}

pub fn is_float_scalar(ty: TypeInner) -> bool
    ensures { result ≡ is_float_scalar ty }
{
    ty == TypeInner::Scalar(ScalarKind::Float)
}

pub fn is_int_scalar(ty: TypeInner) -> bool
    ensures { result ≡ is_integer_scalar ty }
{
    is_integer_scalar(Some(ty))
}

pub fn grad_fits(dim: ImageDimension, ty: TypeInner) -> bool
    ensures { result ≡ grad_fits dim ty }
{
    ty == place_type(dim, ScalarKind::Float)
}

pub fn offset_fits(dim: ImageDimension, ty: TypeInner) -> bool
    ensures { result ≡ offset_fits dim ty }
{
    !is_cube(dim) && is_integer_place(Some(ty), dim)
}

// Whether a coordinate has the components that a place needs, and one more for a layer or a divisor.
pub fn has_components(dim: ImageDimension, more: bool, ty: TypeInner) -> bool
    ensures { result ≡ has_components dim more ty }
{
    place_size(dim) + u32::from(more) <= count_in(ty)
}

fn is_number(ty: TypeInner) -> bool
    ensures { result ≡ is_number ty }
{
    1 <= count_in(ty)
}

pub fn load_result_fits(class: ImageClass, ty: TypeInner) -> bool
    ensures { result ≡ load_result_fits class ty }
{
    if is_depth(class) {
        is_number(ty) && is_float(kind_in(ty))
    } else {
        ty == texel_type(class)
    }
}

pub fn stored_fits(class: ImageClass, ty: TypeInner) -> bool
    ensures { result ≡ stored_fits class ty }
{
    is_number(ty) && kind_in(ty) == class_kind(class)
}

pub fn vector_size(ty: TypeInner) -> Option<VectorSize>
    ensures { result ≡ vector_size ty }
{
    match ty {
        TypeInner::Vector { size, .. } => Some(size),
        _ => None,
    }
}

// The size of the vector that a place is composed of, where it has more than one component.
pub fn composed_size(dim: ImageDimension) -> Option<VectorSize>
    ensures { result ≡ composed_size dim }
{
    match dim {
        ImageDimension::D1 => None,
        ImageDimension::D2 => Some(VectorSize::Bi),
        ImageDimension::D3 | ImageDimension::Cube => Some(VectorSize::Tri),
    }
}
