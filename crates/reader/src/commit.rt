// Appending the records of an instruction whose checks have passed. Nothing here can be refused.
ghost use Rattle.std.specs.Prelude.{◌≡◌, ◌+◌, length};
ghost use Rattle.images.specs.Records.{at, reference_records, reference_count, divided_reference, sample_records, sample_count, splatted_to, one_or_two, load_records, load_count, widened, widened_count, widened_value, store_records, store_count, split_place, split_layer, split_count};
ghost use Rattle.reader.specs.Reads.{last_of, sample_lookup, load_lookup};
ghost use Rattle.reader.specs.Checks.{max_expressions};
ghost use Rattle.memory.specs.Rooms.{RoomIn};
ghost use Rattle.reader.specs.Writes.{written, Room, Appends};

use crate::arena::Arena;
use crate::split::extract_image_coordinates;
use images::{ExtraCoordinate, LoadPlan, SamplePlan, Split, StorePlan, place_size};
use records::{
    Expression, ExpressionHandle, ImageParts, LookupExpression, SwizzleComponent, TypeHandle,
    VectorSize,
};

// A depth reference, divided like the place.
fn divide_reference(
    arena: &mut Arena<'_>,
    split: Split,
    reference: Option<ExpressionHandle>,
) -> Option<ExpressionHandle>
    requires { Room arena.old (reference_count split reference) }
    ensures appended { Appends arena.old arena.new (reference_records arena.old.used split reference) (reference_count split reference) }
    ensures divided { result ≡ divided_reference arena.old.used split reference }
{
    let reference = reference?;
    match split.extra {
        ExtraCoordinate::Projection => {
            let divisor = arena.append(Expression::access_index(split.base, place_size(split.dim)));
            Some(arena.append(Expression::divide(reference, divisor)))
        }
        _ => Some(reference),
    }
}

// The expression that asks, and its Splat where its one Float is repeated; the last holds the result type.
fn append_asking(
    arena: &mut Arena<'_>,
    splat: Option<VectorSize>,
    res: TypeHandle,
    asking: Expression,
) -> ExpressionHandle
    requires { Room arena.old (one_or_two splat) }
    ensures appended { Appends arena.old arena.new (splatted_to splat arena.old.used res asking) (one_or_two splat) }
    ensures last { result ≡ at (arena.old.used + last_of splat) }
{
    match splat {
        Some(size) => {
            let asked = arena.append(asking);
            arena.append(Expression::splat(size, asked).with_result(res))
        }
        None => arena.append(asking.with_result(res)),
    }
}

// A sample or gather; the last of its records is its value.
#[tactic(auto, using(crate::proofs::Written::written_append, crate::proofs::Written::split_length, crate::proofs::Written::reference_length))]
pub(crate) fn append_sample(
    expressions: &mut [Expression],
    used: u32,
    plan: SamplePlan,
) -> LookupExpression
    requires { RoomIn (length expressions.old) used (sample_count plan) max_expressions }
    ensures appended { expressions.new ≡ written expressions.old used (sample_records used plan) }
    ensures value { result ≡ sample_lookup used plan }
{
    let mut arena = Arena {
        cells: expressions,
        used,
    };
    let (coordinate, array_index) = extract_image_coordinates(&mut arena, plan.split);
    let depth_ref = divide_reference(&mut arena, plan.split, plan.reference);
    let parts = ImageParts {
        coordinate,
        array_index,
        gather: plan.gather,
        offset: plan.offset,
        level: plan.level,
        depth_ref,
        ..ImageParts::BLANK
    };
    let asking = Expression::image_sample(plan.image, plan.sampler, parts);
    let handle = append_asking(&mut arena, plan.splat, plan.result, asking);
    LookupExpression {
        handle,
        ty: plan.result,
    }
}

// A load, likewise.
#[tactic(auto, using(crate::proofs::Written::written_append, crate::proofs::Written::split_length))]
pub(crate) fn append_load(
    expressions: &mut [Expression],
    used: u32,
    plan: LoadPlan,
) -> LookupExpression
    requires { RoomIn (length expressions.old) used (load_count plan) max_expressions }
    ensures appended { expressions.new ≡ written expressions.old used (load_records used plan) }
    ensures value { result ≡ load_lookup used plan }
{
    let mut arena = Arena {
        cells: expressions,
        used,
    };
    let (coordinate, array_index) = extract_image_coordinates(&mut arena, plan.split);
    let parts = ImageParts {
        coordinate,
        array_index,
        sample: plan.sample,
        lod: plan.lod,
        ..ImageParts::BLANK
    };
    let asking = Expression::image_load(plan.image, parts);
    let handle = append_asking(&mut arena, plan.splat, plan.result, asking);
    LookupExpression {
        handle,
        ty: plan.result,
    }
}

// The value of a store, widened to four components.
fn widen(
    arena: &mut Arena<'_>,
    value: ExpressionHandle,
    size: Option<VectorSize>,
) -> ExpressionHandle
    requires { Room arena.old (widened_count size) }
    ensures appended { Appends arena.old arena.new (widened value size) (widened_count size) }
    ensures value { result ≡ widened_value arena.old.used value size }
{
    let (x, y, z) = (
        SwizzleComponent::X,
        SwizzleComponent::Y,
        SwizzleComponent::Z,
    );
    let expression = match size {
        None => Expression::splat(VectorSize::Quad, value),
        Some(VectorSize::Bi) => Expression::swizzle(VectorSize::Quad, value, [x, y, y, y]),
        Some(VectorSize::Tri) => Expression::swizzle(VectorSize::Quad, value, [x, y, z, z]),
        Some(VectorSize::Quad) => return value,
    };
    arena.append(expression)
}

// The operands of a store: the place, the layer and the widened value.
#[derive(Clone, Copy)]
pub(crate) struct StoreOperands {
    pub coordinate: ExpressionHandle,
    pub array_index: Option<ExpressionHandle>,
    pub value: ExpressionHandle,
}

// The expressions of a store.
pub(crate) fn append_store(
    expressions: &mut [Expression],
    used: u32,
    plan: StorePlan,
) -> StoreOperands
    requires { RoomIn (length expressions.old) used (store_count plan) max_expressions }
    ensures appended { expressions.new ≡ written expressions.old used (store_records used plan) }
    ensures coordinate { result.coordinate ≡ split_place used plan.split }
    ensures layer { result.array_index ≡ split_layer used plan.split }
    ensures value { result.value ≡ widened_value (used + split_count plan.split) plan.value plan.size }
{
    let mut arena = Arena {
        cells: expressions,
        used,
    };
    let (coordinate, array_index) = extract_image_coordinates(&mut arena, plan.split);
    let value = widen(&mut arena, plan.value, plan.size);
    StoreOperands {
        coordinate,
        array_index,
        value,
    }
}
