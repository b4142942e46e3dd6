// What each expression is worth, from the values of its operands.
ghost use Rattle.std.specs.Prelude.{◌≡◌, slice_set};
ghost use Rattle.run.specs.Envs.{env_of};
ghost use Rattle.run.specs.Runs.{value_at, input_at};
ghost use Rattle.run.specs.Worth.{literal_components, whole, index_bits, element_of, numbers_of, computed_tag, worth};

use crate::lists::Lists;
use crate::requests::{
    NO_COMPONENTS, components_at, components_of, load_request, resource_of, sample_request,
    texture_type_of, value_at,
};
use records::{Expression, ExpressionTag, Literal, SwizzleComponent, TypeInner};
use units::{
    Components, Lanes, Reference, Resource, Root, TextureUnit, Value, Width, bits_of_sint,
    cast_components, choose, clean, compose, divide_scalars, round_components,
};

fn literal_components(literal: Literal) -> Components
    ensures { result ≡ literal_components literal }
{
    let lanes = match literal {
        Literal::U32(x) => Lanes::Uint([x, 0, 0, 0]),
        Literal::I32(x) => Lanes::Sint([x, 0, 0, 0]),
        Literal::F32(x) => Lanes::Float([x, 0.0, 0.0, 0.0]),
    };
    Components {
        width: Width::One,
        lanes,
    }
}

// A variable or argument itself.
fn whole(root: Root, ty: Option<TypeInner>) -> Value
    ensures { result ≡ whole root ty }
{
    let resource = Resource {
        root,
        depth: 0,
        indexes: [0; 4],
    };
    Value::Texture(Reference {
        resource,
        ty: ty.unwrap_or(TypeInner::Sampler),
    })
}

// The bits of an index, Sint or Uint alike.
fn index_bits(lanes: Lanes) -> u32
    ensures { result ≡ index_bits lanes }
{
    match lanes {
        Lanes::Sint(four) => bits_of_sint(four[0]),
        Lanes::Uint(four) => four[0],
        _ => 0,
    }
}

fn numbers_of(pattern: [SwizzleComponent; 4]) -> [u32; 4]
    ensures { result ≡ numbers_of pattern }
{
    pattern.map(|component| component.index())
}

// The indexes with one more, if it is among the first four.
fn with_index(mut indexes: [u32; 4], depth: u32, bits: u32) -> [u32; 4]
    ensures { result ≡ slice_set indexes depth bits }
{
    if depth < 4 {
        indexes[depth as usize] = bits;
    }
    indexes
}

fn input_at(inputs: &[Components], number: u32) -> Components
    ensures { result ≡ input_at inputs.now number }
{
    inputs
        .get(number as usize)
        .copied()
        .unwrap_or(NO_COMPONENTS)
}

impl Lists<'_> {
    // One element further: the first four indexes are kept.
    fn element_of(self, base: Value, index: Value) -> Value
        ensures { result ≡ element_of (env_of self.entry) base index }
    {
        let from = resource_of(base);
        let bits = index_bits(components_of(index).lanes);
        let indexes = with_index(from.indexes, from.depth, bits);
        let resource = Resource {
            root: from.root,
            depth: from.depth.saturating_add(1),
            indexes,
        };
        let ty = self
            .element_type(texture_type_of(base))
            .unwrap_or(TypeInner::Sampler);
        Value::Texture(Reference { resource, ty })
    }
}

// The components of a record that computes them from those of other expressions.
fn compute(values: &[Value], e: Expression) -> Components
    ensures { result ≡ computed_tag (value_at values.now) e e.tag }
{
    let base = components_at(values, e.base);
    match e.tag {
        ExpressionTag::AccessIndex => choose(Width::One, [e.index; 4], base),
        ExpressionTag::Splat => choose(e.size.into(), [0; 4], base),
        ExpressionTag::Swizzle => choose(e.size.into(), numbers_of(e.pattern), base),
        ExpressionTag::Divide => divide_scalars(base, components_at(values, e.other)),
        ExpressionTag::Round => round_components(base),
        ExpressionTag::As => cast_components(base),
        ExpressionTag::Compose => {
            let [a, b, c, d] = e.components.map(|part| components_at(values, part));
            compose(e.size.into(), a, b, c, d)
        }
        _ => base,
    }
}

// The value of an expression from those before it.
pub fn work_out<U: TextureUnit>(
    lists: Lists<'_>,
    unit: &U,
    inputs: &[Components],
    values: &[Value],
    e: Expression,
) -> Value
    ensures { result ≡ worth (env_of lists.entry) (U.answers unit.now) (input_at inputs.now) (value_at values.now) e }
{
    match e.tag {
        ExpressionTag::GlobalVariable => whole(
            Root::Variable(e.variable),
            lists.type_by(lists.variable_at(e.variable)),
        ),
        ExpressionTag::FunctionArgument => whole(
            Root::Argument(e.argument),
            lists.type_by(lists.argument_at(e.argument)),
        ),
        ExpressionTag::Constant => {
            let components = lists.constant_at(e.constant).map(literal_components);
            Value::Number(components.unwrap_or(NO_COMPONENTS))
        }
        ExpressionTag::Supplied => Value::Number(clean(input_at(inputs, e.index))),
        ExpressionTag::Access => lists.element_of(
            value_at(values, e.base),
            value_at(values, e.other),
        ),
        ExpressionTag::ImageSample => Value::Number(unit.ask(sample_request(values, e))),
        ExpressionTag::ImageLoad => Value::Number(unit.ask(load_request(values, e))),
        _ => Value::Number(compute(values, e)),
    }
}
