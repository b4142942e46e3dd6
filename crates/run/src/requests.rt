// The one request that a sample, gather or load makes of the values worked out so far.
ghost use Rattle.std.specs.Prelude.{◌≡◌};
ghost use Rattle.run.specs.Asked.{request_of};
ghost use Rattle.run.specs.Runs.{value_at};
ghost use Rattle.run.specs.Worth.{components_of, resource_of, texture_type_of, optional, level_of, load_level, dimension_of, depth_of, sort_of, image_request, sample_request, load_request};

use crate::statics::is_depth;
use crate::types::kind_in;
use records::{
    Expression, ExpressionHandle, ExpressionTag, GlobalVariableHandle, ImageDimension, SampleLevel,
    SwizzleComponent, TypeInner,
};
use units::{Components, Lanes, Level, Request, Resource, Root, Sort, Value, Width};

pub const NO_COMPONENTS: Components = Components {
    width: Width::One,
    lanes: Lanes::Float([0.0; 4]),
};

const NO_RESOURCE: Resource = Resource {
    root: Root::Variable(GlobalVariableHandle { index: 0 }),
    depth: 0,
    indexes: [0; 4],
};

// The value of an expression that is worked out; one that is not is not asked for.
pub fn value_at(values: &[Value], handle: ExpressionHandle) -> Value
    ensures { result ≡ value_at values.now handle.index }
{
    values
        .get(handle.index as usize)
        .copied()
        .unwrap_or(Value::Number(NO_COMPONENTS))
}

pub fn components_of(value: Value) -> Components
    ensures { result ≡ components_of value }
{
    match value {
        Value::Number(components) => components,
        Value::Texture(_) => NO_COMPONENTS,
    }
}

pub fn resource_of(value: Value) -> Resource
    ensures { result ≡ resource_of value }
{
    match value {
        Value::Number(_) => NO_RESOURCE,
        Value::Texture(reference) => reference.resource,
    }
}

pub fn texture_type_of(value: Value) -> TypeInner
    ensures { result ≡ texture_type_of value }
{
    match value {
        Value::Number(_) => TypeInner::Sampler,
        Value::Texture(reference) => reference.ty,
    }
}

pub fn components_at(values: &[Value], handle: ExpressionHandle) -> Components
    ensures { result ≡ components_of (value_at values.now handle.index) }
{
    components_of(value_at(values, handle))
}

fn optional_at(values: &[Value], handle: Option<ExpressionHandle>) -> Option<Components>
    ensures { result ≡ optional (value_at values.now) handle }
{
    Some(components_at(values, handle?))
}

fn level_at(values: &[Value], level: SampleLevel) -> Level
    ensures { result ≡ level_of (value_at values.now) level }
{
    match level {
        SampleLevel::Auto => Level::Auto,
        SampleLevel::Zero => Level::Zero,
        SampleLevel::Exact(level) => Level::Exact(components_at(values, level)),
        SampleLevel::Bias(level) => Level::Bias(components_at(values, level)),
        SampleLevel::Gradient { x, y } => {
            let x = components_at(values, x);
            let y = components_at(values, y);
            Level::Gradient { x, y }
        }
    }
}

fn load_level(lod: Option<Components>) -> Level
    ensures { result ≡ load_level lod }
{
    lod.map_or(Level::Unstated, Level::Exact)
}

pub fn dimension_of(ty: TypeInner) -> ImageDimension
    ensures { result ≡ dimension_of ty }
{
    match ty {
        TypeInner::Image { dim, .. } => dim,
        _ => ImageDimension::D1,
    }
}

pub fn depth_of(ty: TypeInner) -> bool
    ensures { result ≡ depth_of ty }
{
    match ty {
        TypeInner::Image { class, .. } => is_depth(class),
        _ => false,
    }
}

fn sort_of(gather: Option<SwizzleComponent>) -> Sort
    ensures { result ≡ sort_of gather }
{
    match gather {
        Some(_) => Sort::Gather,
        None => Sort::Sample,
    }
}

// What every request of an image has; the other parts are missing.
pub fn image_request(
    values: &[Value],
    sort: Sort,
    image: ExpressionHandle,
    coordinate: ExpressionHandle,
    layer: Option<ExpressionHandle>,
) -> Request
    ensures { result ≡ image_request (value_at values.now) sort image coordinate layer }
{
    let image = value_at(values, image);
    let ty = texture_type_of(image);
    Request {
        texture: resource_of(image),
        sampler: None,
        sort,
        kind: kind_in(ty),
        dim: dimension_of(ty),
        depth: depth_of(ty),
        coordinate: components_at(values, coordinate),
        layer: optional_at(values, layer),
        gather: None,
        sample: None,
        offset: None,
        level: Level::Unstated,
        reference: None,
        value: None,
    }
}

pub fn sample_request(values: &[Value], e: Expression) -> Request
    ensures { result ≡ sample_request (value_at values.now) e }
{
    let parts = e.image;
    let sort = sort_of(parts.gather);
    Request {
        sampler: Some(resource_of(value_at(values, e.other))),
        gather: parts.gather,
        offset: optional_at(values, parts.offset),
        level: level_at(values, parts.level),
        reference: optional_at(values, parts.depth_ref),
        ..image_request(values, sort, e.base, parts.coordinate, parts.array_index)
    }
}

pub fn load_request(values: &[Value], e: Expression) -> Request
    ensures { result ≡ load_request (value_at values.now) e }
{
    let parts = e.image;
    Request {
        sample: optional_at(values, parts.sample),
        level: load_level(optional_at(values, parts.lod)),
        ..image_request(
            values,
            Sort::Load,
            e.base,
            parts.coordinate,
            parts.array_index,
        )
    }
}

// The request that an expression asks, if it asks one, made again from the values that a run wrote.
pub fn request_of(values: &[Value], e: Expression) -> Option<Request>
    ensures { result ≡ request_of (value_at values.now) e }
{
    match e.tag {
        ExpressionTag::ImageSample => Some(sample_request(values, e)),
        ExpressionTag::ImageLoad => Some(load_request(values, e)),
        _ => None,
    }
}
