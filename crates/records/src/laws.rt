// Laws, proved of the definitions that the contracts cite.
ghost use Rattle.std.specs.Prelude.{◌≡◌};
ghost use Rattle.records.specs.Types.{KindsDecided, ClassesDecided, TypesDecided};

// Equal is identical: `==` and `!=` mean it also in generic code and of slices of types.
pub fn laws_stand() -> u8
    ensures kinds { KindsDecided }
    ensures classes { ClassesDecided }
    ensures types { TypesDecided }
    ensures value { result ≡ 0 }
{
    0
}
