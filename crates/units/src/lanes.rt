// The four types of a lane, and four lanes at a time: what is past a width is zero.
ghost use Rattle.std.specs.Prelude.{◌≡◌, false, pos, map, slice_index_or};
ghost use Rattle.units.specs.declared.values.Lanes.{Lanes as FourLanes};
ghost use Rattle.units.specs.Arithmetic.{zero_float};
ghost use Rattle.units.specs.Lanes.{fill, first_float, first_sint, first_uint, first_bool};
ghost use Rattle.units.specs.Operations.{mapped, chosen_lanes};

use crate::values::{Lanes, Width};

// A type that the lanes of one kind have.
pub trait Lane: Copy {
    ghost ZERO: { Self };

    ghost first: { FourLanes → Self };

    const ZERO: Self;

    // The first lane, or zero where the lanes are of another type.
    fn first(lanes: Lanes) -> Self
        ensures { result ≡ first lanes };
}

impl Lane for f32 {
    ghost ZERO = { zero_float };

    ghost first = { first_float };

    const ZERO: f32 = 0.0;

    fn first(lanes: Lanes) -> f32 {
        match lanes {
            Lanes::Float(four) => four[0],
            _ => 0.0,
        }
    }
}

impl Lane for i32 {
    ghost ZERO = { pos 0 };

    ghost first = { first_sint };

    const ZERO: i32 = 0;

    fn first(lanes: Lanes) -> i32 {
        match lanes {
            Lanes::Sint(four) => four[0],
            _ => 0,
        }
    }
}

impl Lane for u32 {
    ghost ZERO = { 0 };

    ghost first = { first_uint };

    const ZERO: u32 = 0;

    fn first(lanes: Lanes) -> u32 {
        match lanes {
            Lanes::Uint(four) => four[0],
            _ => 0,
        }
    }
}

impl Lane for bool {
    ghost ZERO = { false };

    ghost first = { first_bool };

    const ZERO: bool = false;

    fn first(lanes: Lanes) -> bool {
        match lanes {
            Lanes::Bool(four) => four[0],
            _ => false,
        }
    }
}

// The lanes within a width, and zeros.
pub fn fill<T: Copy>(zero: T, width: Width, lanes: [T; 4]) -> [T; 4]
    ensures { result ≡ fill zero width lanes }
{
    match width {
        Width::One => [lanes[0], zero, zero, zero],
        Width::Two => [lanes[0], lanes[1], zero, zero],
        Width::Three => [lanes[0], lanes[1], lanes[2], zero],
        Width::Four => lanes,
    }
}

// A lane by its number, or zero past the last.
fn lane_at<T: Lane>(lanes: [T; 4], number: u32) -> T
    ensures { result ≡ slice_index_or lanes number T.ZERO }
{
    lanes.get(number as usize).copied().unwrap_or(T::ZERO)
}

// The lanes with these numbers.
pub(crate) fn choose_lanes<T: Lane>(width: Width, numbers: [u32; 4], lanes: [T; 4]) -> [T; 4]
    ensures { result ≡ chosen_lanes T.ZERO width numbers lanes }
{
    let [a, b, c, d] = numbers;
    fill(
        T::ZERO,
        width,
        [
            lane_at(lanes, a),
            lane_at(lanes, b),
            lane_at(lanes, c),
            lane_at(lanes, d),
        ],
    )
}

// What `f` makes of the lanes within a width, and zeros.
pub(crate) fn map_lanes<A: Lane, B: Lane, F: Fn(A) -> B>(
    width: Width,
    lanes: [A; 4],
    f: F,
) -> [B; 4]
    requires { F.IsAlwaysCallable f }
    ensures { (g : A → B) → ((x : A) (y : B) → F.post f x y → y ≡ g x) → result ≡ mapped A.ZERO B.ZERO g width lanes }
{
    fill(
        B::ZERO,
        width,
        [f(lanes[0]), f(lanes[1]), f(lanes[2]), f(lanes[3])],
    )
}

// The first lanes of four scalars, put together.
pub(crate) fn compose_lanes<T: Lane>(width: Width, scalars: [Lanes; 4]) -> [T; 4]
    ensures { result ≡ fill T.ZERO width (map T.first scalars) }
{
    fill(
        T::ZERO,
        width,
        [
            T::first(scalars[0]),
            T::first(scalars[1]),
            T::first(scalars[2]),
            T::first(scalars[3]),
        ],
    )
}
