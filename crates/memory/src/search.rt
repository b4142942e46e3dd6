// The search for a type in the list of types.
ghost use Rattle.std.specs.Prelude.{◌≡◌, take};
ghost use Rattle.memory.specs.Firsts.{first_equal};

use crate::context::BlockContext;
use crate::lists::front;
use records::TypeInner;

// The number of the first type that is equal to a type, among the first `count`.
pub fn first_equal(types: &[TypeInner], count: u32, ty: TypeInner) -> Option<u32>
    ensures { result ≡ first_equal ty (take count types.now) }
{
    for (index, other) in front(types, count).iter().enumerate() {
        if *other == ty {
            return Some(index as u32);
        }
    }
    None
}

impl<B> BlockContext<'_, B> {
    // The number of the first used type that is equal to a type.
    pub fn first_equal(&self, ty: TypeInner) -> Option<u32>
        ensures { result ≡ first_equal ty self.now.lists.types.now }
    {
        let types = self.lists.types;
        first_equal(types, types.len() as u32, ty)
    }
}
