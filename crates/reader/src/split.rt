// The coordinate taken apart: its expressions are appended, and it answers the place and, where there is one, the layer.
ghost use Rattle.std.specs.Prelude.{◌≡◌, ◌+◌, [], ◌∷◌};
ghost use Rattle.records.specs.Expressions.{access_index, divide};
ghost use Rattle.images.specs.Records.{at, place_records, place_count, place_last, layer_records, layer_count, layer_last, projected_records, projected_count, projected_last, cut_record, split_records, split_count, split_place, split_layer};
ghost use Rattle.reader.specs.Writes.{Room, Appends};

use crate::arena::Arena;
use images::{ExtraCoordinate, Split, place_size};
use records::{
    Expression, ExpressionHandle, ImageDimension, SwizzleComponent, TypeHandle, VectorSize,
};

// What stands in a Compose where it has no component.
const NOTHING: ExpressionHandle = ExpressionHandle { index: 0 };

// The first components of the coordinate `c`, put together again.
fn place(
    arena: &mut Arena<'_>,
    c: ExpressionHandle,
    vector: TypeHandle,
    dim: ImageDimension,
) -> ExpressionHandle
    requires { Room arena.old (place_count dim) }
    ensures appended { Appends arena.old arena.new (place_records arena.old.used c vector dim) (place_count dim) }
    ensures last { result ≡ at (arena.old.used + place_last dim) }
{
    let x = arena.append(Expression::access_index(c, 0));
    match dim {
        ImageDimension::D1 => x,
        ImageDimension::D2 => {
            let y = arena.append(Expression::access_index(c, 1));
            let components = [x, y, NOTHING, NOTHING];
            arena.append(Expression::compose(vector, VectorSize::Bi, components))
        }
        ImageDimension::D3 | ImageDimension::Cube => {
            let y = arena.append(Expression::access_index(c, 1));
            let z = arena.append(Expression::access_index(c, 2));
            let components = [x, y, z, NOTHING];
            arena.append(Expression::compose(vector, VectorSize::Tri, components))
        }
    }
}

// Component `n` of the coordinate as a layer: a Float one is rounded, then it is cast.
fn layer(arena: &mut Arena<'_>, c: ExpressionHandle, n: u32, float: bool) -> ExpressionHandle
    requires { Room arena.old (layer_count float) }
    ensures appended { Appends arena.old arena.new (layer_records arena.old.used c n float) (layer_count float) }
    ensures last { result ≡ at (arena.old.used + layer_last float) }
{
    let component = arena.append(Expression::access_index(c, n));
    let number = if float {
        arena.append(Expression::round(component))
    } else {
        component
    };
    arena.append(Expression::cast(number))
}

// One component divided by another.
fn quotient(
    arena: &mut Arena<'_>,
    c: ExpressionHandle,
    index: u32,
    divisor: ExpressionHandle,
) -> ExpressionHandle
    requires { Room arena.old 2 }
    ensures appended { Appends arena.old arena.new (access_index c index ∷ divide (at arena.old.used) divisor ∷ []) 2 }
    ensures last { result ≡ at (arena.old.used + 1) }
{
    let component = arena.append(Expression::access_index(c, index));
    arena.append(Expression::divide(component, divisor))
}

// The first components, each divided by the one after them, put together again.
fn project(
    arena: &mut Arena<'_>,
    c: ExpressionHandle,
    vector: TypeHandle,
    dim: ImageDimension,
) -> ExpressionHandle
    requires { Room arena.old (projected_count dim) }
    ensures appended { Appends arena.old arena.new (projected_records arena.old.used c vector dim) (projected_count dim) }
    ensures last { result ≡ at (arena.old.used + projected_last dim) }
{
    let divisor = arena.append(Expression::access_index(c, place_size(dim)));
    let x = quotient(arena, c, 0, divisor);
    match dim {
        ImageDimension::D1 => x,
        ImageDimension::D2 => {
            let y = quotient(arena, c, 1, divisor);
            let components = [x, y, NOTHING, NOTHING];
            arena.append(Expression::compose(vector, VectorSize::Bi, components))
        }
        ImageDimension::D3 | ImageDimension::Cube => {
            let y = quotient(arena, c, 1, divisor);
            let z = quotient(arena, c, 2, divisor);
            let components = [x, y, z, NOTHING];
            arena.append(Expression::compose(vector, VectorSize::Tri, components))
        }
    }
}

// The first components alone.
fn cut(c: ExpressionHandle, dim: ImageDimension) -> Expression
    ensures { result ≡ cut_record c dim }
{
    let pattern = [
        SwizzleComponent::X,
        SwizzleComponent::Y,
        SwizzleComponent::Z,
        SwizzleComponent::W,
    ];
    match dim {
        ImageDimension::D1 => Expression::access_index(c, 0),
        ImageDimension::D2 => Expression::swizzle(VectorSize::Bi, c, pattern),
        ImageDimension::D3 | ImageDimension::Cube => Expression::swizzle(
            VectorSize::Tri,
            c,
            pattern,
        ),
    }
}

// Takes the coordinate apart. There is a layer exactly if the image is arrayed.
pub(crate) fn extract_image_coordinates(
    arena: &mut Arena<'_>,
    split: Split,
) -> (ExpressionHandle, Option<ExpressionHandle>)
    requires { Room arena.old (split_count split) }
    ensures appended { Appends arena.old arena.new (split_records arena.old.used split) (split_count split) }
    ensures place { result.0 ≡ split_place arena.old.used split }
    ensures layer { result.1 ≡ split_layer arena.old.used split }
{
    let Split {
        base,
        dim,
        vector,
        ..
    } = split;
    match split.extra {
        ExtraCoordinate::ArrayLayer => {
            let extracted = place(arena, base, vector, dim);
            let array_index = layer(arena, base, place_size(dim), split.float);
            (extracted, Some(array_index))
        }
        ExtraCoordinate::Projection => (project(arena, base, vector, dim), None),
        ExtraCoordinate::Garbage if split.exact => (base, None),
        ExtraCoordinate::Garbage => (arena.append(cut(base, dim)), None),
    }
}
