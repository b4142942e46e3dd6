// How a variable or argument was sampled.
ghost use Rattle.std.specs.Prelude.{◌≡◌};
ghost use Rattle.records.specs.Flags.{contains, union, FlagsKept};

// A set of bits: sampled with a comparison, or without one.
#[derive(Clone, Copy, PartialEq, Eq)]
pub struct SamplingFlags {
    pub bits: u32,
}

impl SamplingFlags {
    pub const EMPTY: SamplingFlags = SamplingFlags { bits: 0 };

    pub const REGULAR: SamplingFlags = SamplingFlags { bits: 1 };

    pub const COMPARISON: SamplingFlags = SamplingFlags { bits: 2 };

    // Whether all bits of a flag stand.
    pub fn contains(self, flag: SamplingFlags) -> bool
        ensures { result ≡ contains self.bits flag.bits }
    {
        self.bits & flag.bits == flag.bits
    }

    // These with the bits of a flag.
    pub fn union(self, flag: SamplingFlags) -> SamplingFlags
        ensures { result ≡ union self flag }
    {
        SamplingFlags {
            bits: self.bits | flag.bits,
        }
    }
}

// A bit that is set stands, and the other stands exactly if it did.
pub fn flags_stand() -> u8
    ensures { FlagsKept }
{
    0
}
