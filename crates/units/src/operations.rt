// What operations make of components: total, and right where the types are.
ghost use Rattle.std.specs.Prelude.{◌≡◌};
ghost use Rattle.units.specs.Operations.{chosen, composed, divided, rounded, casted};
ghost use Rattle.units.specs.Requests.{clean};

use crate::arithmetic::{divide, round, sint_of_bits, to_sint};
use crate::lanes::{Lane, choose_lanes, compose_lanes, map_lanes};
use crate::values::{Components, Lanes, Width};

// The lanes with these numbers: one for AccessIndex, the first over and over for Splat, those of a pattern for Swizzle.
pub fn choose(width: Width, numbers: [u32; 4], components: Components) -> Components
    ensures { result ≡ chosen width numbers components }
{
    let lanes = match components.lanes {
        Lanes::Float(four) => Lanes::Float(choose_lanes(width, numbers, four)),
        Lanes::Sint(four) => Lanes::Sint(choose_lanes(width, numbers, four)),
        Lanes::Uint(four) => Lanes::Uint(choose_lanes(width, numbers, four)),
        Lanes::Bool(four) => Lanes::Bool(choose_lanes(width, numbers, four)),
    };
    Components { width, lanes }
}

// The lanes past the width put to zero.
pub fn clean(components: Components) -> Components
    ensures { result ≡ clean components }
{
    choose(components.width, [0, 1, 2, 3], components)
}

// Scalars put together, of the kind of the first.
pub fn compose(
    width: Width,
    a: Components,
    b: Components,
    c: Components,
    d: Components,
) -> Components
    ensures { result ≡ composed width a b c d }
{
    let scalars = [a.lanes, b.lanes, c.lanes, d.lanes];
    let lanes = match a.lanes {
        Lanes::Float(_) => Lanes::Float(compose_lanes(width, scalars)),
        Lanes::Sint(_) => Lanes::Sint(compose_lanes(width, scalars)),
        Lanes::Uint(_) => Lanes::Uint(compose_lanes(width, scalars)),
        Lanes::Bool(_) => Lanes::Bool(compose_lanes(width, scalars)),
    };
    Components { width, lanes }
}

pub fn divide_scalars(left: Components, right: Components) -> Components
    ensures { result ≡ divided left right }
{
    Components::float(divide(f32::first(left.lanes), f32::first(right.lanes)))
}

pub fn round_components(components: Components) -> Components
    ensures { result ≡ rounded components }
{
    let width = components.width;
    let lanes = match components.lanes {
        Lanes::Float(four) => Lanes::Float(map_lanes(width, four, round)),
        other => other,
    };
    Components { width, lanes }
}

// As: to Sint.
pub fn cast_components(components: Components) -> Components
    ensures { result ≡ casted components }
{
    let width = components.width;
    let lanes = match components.lanes {
        Lanes::Float(four) => Lanes::Sint(map_lanes(width, four, to_sint)),
        Lanes::Uint(four) => Lanes::Sint(map_lanes(width, four, sint_of_bits)),
        other => other,
    };
    Components { width, lanes }
}
