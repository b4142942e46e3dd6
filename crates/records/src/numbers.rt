// Vector sizes and the components of a pattern by their numbers.
ghost use Rattle.std.specs.Prelude.{◌≡◌};
ghost use Rattle.std.specs.Option.{ok_or};
ghost use Rattle.records.specs.Numbers.{size_of, size_numbered, component_number, component_numbered};

use crate::expressions::SwizzleComponent;
use crate::types::VectorSize;

// A number that stands for nothing.
#[derive(Clone, Copy, PartialEq, Eq, Debug)]
pub struct UnknownNumber {
    pub number: u32,
}

impl VectorSize {
    // How many components there are.
    pub fn count(self) -> u32
        ensures { result ≡ size_of self }
    {
        match self {
            VectorSize::Bi => 2,
            VectorSize::Tri => 3,
            VectorSize::Quad => 4,
        }
    }
}

impl TryFrom<u32> for VectorSize {
    type Error = UnknownNumber;

    ghost try_from_gives = { λ number r. r ≡ ok_or (size_numbered number) (record { number = number }) };

    fn try_from(number: u32) -> Result<VectorSize, UnknownNumber> {
        match number {
            2 => Ok(VectorSize::Bi),
            3 => Ok(VectorSize::Tri),
            4 => Ok(VectorSize::Quad),
            _ => Err(UnknownNumber { number }),
        }
    }
}

impl SwizzleComponent {
    // Its place in a vector, from 0.
    pub fn index(self) -> u32
        ensures { result ≡ component_number self }
    {
        match self {
            SwizzleComponent::X => 0,
            SwizzleComponent::Y => 1,
            SwizzleComponent::Z => 2,
            SwizzleComponent::W => 3,
        }
    }
}

impl TryFrom<u32> for SwizzleComponent {
    type Error = UnknownNumber;

    ghost try_from_gives = { λ number r. r ≡ ok_or (component_numbered number) (record { number = number }) };

    fn try_from(number: u32) -> Result<SwizzleComponent, UnknownNumber> {
        match number {
            0 => Ok(SwizzleComponent::X),
            1 => Ok(SwizzleComponent::Y),
            2 => Ok(SwizzleComponent::Z),
            3 => Ok(SwizzleComponent::W),
            _ => Err(UnknownNumber { number }),
        }
    }
}
