// Setting a sampling flag on a variable or argument.
ghost use Rattle.std.specs.Prelude.{◌≡◌, slice_get, slice_set, MatchOption};
ghost use Rattle.memory.specs.Cells.{cells_of};
ghost use Rattle.memory.specs.declared.lists.Counts.{Counts};
ghost use Rattle.reader.specs.Reads.{flagged};

use memory::Lists;
use records::{FunctionArgument, GlobalVariable, SamplingFlags};
use units::Root;

// Changes the record with a number, if there is one.
fn change<T: Copy, F: FnOnce(T) -> T>(records: &mut [T], index: u32, f: F)
    requires { F.IsAlwaysCallable f }
    ensures { MatchOption (slice_get records.old index) (records.new ≡ records.old) (λ x. (y : _) × F.post f x y × (records.new ≡ slice_set records.old index y)) }
{
    let i = index as usize;
    if let Some(record) = records.get(i).copied() {
        records[i] = f(record);
    }
}

pub(crate) fn mark(lists: &mut Lists<'_>, root: Root, flag: SamplingFlags)
    ensures { (counts : Counts) → cells_of counts lists.new ≡ flagged (cells_of counts lists.old) flag root }
{
    match root {
        Root::Variable(variable) => change(
            lists.variables,
            variable.index,
            |v: GlobalVariable| GlobalVariable {
                flags: v.flags.union(flag),
                ..v
            },
        ),
        Root::Argument(argument) => change(
            lists.arguments,
            argument.index,
            |a: FunctionArgument| FunctionArgument {
                flags: a.flags.union(flag),
                ..a
            },
        ),
    }
}
