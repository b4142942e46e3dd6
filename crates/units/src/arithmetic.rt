// The arithmetic of a run: binary32 division and rounding, and the casts to Sint.
ghost use Rattle.std.specs.Prelude.{◌≡◌};
ghost use Rattle.units.specs.Arithmetic.{quotient, nearest, to_sint, bits_to_sint, sint_to_bits, Examples};

use std::num::saturating_f32_to_i32;

#[tactic(auto, unfolding(crate::specs::Arithmetic::quotient))]
pub fn divide(left: f32, right: f32) -> f32
    ensures { result ≡ quotient left right }
{
    left / right
}

// To the nearest whole number, ties to even.
#[tactic(auto, unfolding(crate::specs::Arithmetic::nearest))]
pub fn round(x: f32) -> f32
    ensures { result ≡ nearest x }
{
    x.round_ties_even()
}

// The fraction is dropped, and the number held to the Floats that are Sints.
#[tactic(auto, unfolding(crate::specs::Arithmetic::to_sint))]
pub fn to_sint(x: f32) -> i32
    ensures { result ≡ to_sint x }
{
    if 2147483648.0 <= x {
        2147483520
    } else {
        saturating_f32_to_i32(x)
    }
}

// A Uint as a Sint of the same bits.
pub fn sint_of_bits(x: u32) -> i32
    ensures { result ≡ bits_to_sint x }
{
    x.cast_signed()
}

// A Sint as a Uint of the same bits.
pub fn bits_of_sint(x: i32) -> u32
    ensures { result ≡ sint_to_bits x }
{
    x.cast_unsigned()
}

pub fn examples_stand() -> u8
    ensures examples { Examples }
    ensures value { result ≡ 0 }
{
    0
}
