// Equality of types: `==` says whether two are one.
ghost use Rattle.std.specs.Prelude.{◌≡◌, Decides};
ghost use Rattle.records.specs.Types.{same_class, same_type};

use crate::types::{ImageClass, TypeInner};

pub fn same_class(class: ImageClass, other: ImageClass) -> bool
    ensures computed { result ≡ same_class class other }
    ensures decides { Decides result (class ≡ other) }
{
    class == other
}

#[tactic(auto, using(crate::proofs::Equal::types_decided))]
pub fn same_type(ty: TypeInner, other: TypeInner) -> bool
    ensures computed { result ≡ same_type ty other }
    ensures decides { Decides result (ty ≡ other) }
{
    ty == other
}
