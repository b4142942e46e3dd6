// What an instruction that passed its checks is to append: all of it is decided before the first write.
use records::{
    ExpressionHandle, ImageDimension, SampleLevel, SamplingFlags, SwizzleComponent, TypeHandle,
    VectorSize,
};
use units::Root;

// What the component after a place is.
#[derive(Clone, Copy)]
pub enum ExtraCoordinate {
    ArrayLayer,
    Projection,
    Garbage,
}

// How a coordinate is taken apart into a place and, where there is one, a layer.
#[derive(Clone, Copy)]
pub struct Split {
    pub base: ExpressionHandle,
    pub dim: ImageDimension,
    pub extra: ExtraCoordinate,
    // whether the components are Floats; a Float layer is rounded
    pub float: bool,
    // whether there are just the components of the place
    pub exact: bool,
    // the type of the Compose that puts a place together again
    pub vector: TypeHandle,
}

// A sample or gather.
#[derive(Clone, Copy)]
pub struct SamplePlan {
    pub split: Split,
    pub image: ExpressionHandle,
    pub sampler: ExpressionHandle,
    // where the flag goes
    pub image_root: Root,
    pub sampler_root: Root,
    pub flag: SamplingFlags,
    pub gather: Option<SwizzleComponent>,
    pub offset: Option<ExpressionHandle>,
    pub level: SampleLevel,
    pub reference: Option<ExpressionHandle>,
    // how often one Float is repeated, if it is
    pub splat: Option<VectorSize>,
    pub result: TypeHandle,
}

// A Fetch or Read.
#[derive(Clone, Copy)]
pub struct LoadPlan {
    pub split: Split,
    pub image: ExpressionHandle,
    pub sample: Option<ExpressionHandle>,
    pub lod: Option<ExpressionHandle>,
    // how often one Float is repeated, if it is
    pub splat: Option<VectorSize>,
    pub result: TypeHandle,
}

// A Write.
#[derive(Clone, Copy)]
pub struct StorePlan {
    pub split: Split,
    pub image: ExpressionHandle,
    pub value: ExpressionHandle,
    // the size of the value; none if it is a scalar
    pub size: Option<VectorSize>,
}
