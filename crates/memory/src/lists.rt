// The six lists that the caller lends, and how much of each is used.
ghost use Rattle.std.specs.Prelude.{◌≡◌, ◌+◌, min, true, take, nat_le};
ghost use Rattle.memory.specs.Cells.{cells_of, counts_inside};
ghost use Rattle.memory.specs.Rooms.{RoomIn};

use records::{Constant, Expression, FunctionArgument, GlobalVariable, Statement, TypeInner};
use run::Lists as UsedLists;

pub struct Lists<'a> {
    pub types: &'a mut [TypeInner],
    pub variables: &'a mut [GlobalVariable],
    pub arguments: &'a mut [FunctionArgument],
    pub constants: &'a mut [Constant],
    pub expressions: &'a mut [Expression],
    pub statements: &'a mut [Statement],
}

// How many cells of each list are used, from the first on, and how many values were brought.
#[derive(Clone, Copy, Default)]
pub struct Counts {
    pub types: u32,
    pub variables: u32,
    pub arguments: u32,
    pub constants: u32,
    pub expressions: u32,
    pub statements: u32,
    pub brought: u32,
}

// The first cells of a list, or all where there are fewer.
pub(crate) fn front<T>(cells: &[T], count: u32) -> &[T]
    ensures { result.now ≡ take count cells.now }
{
    cells.get(..count as usize).unwrap_or(cells)
}

// Whether some more records fit into a list: a cell is free if it is lent, not used and below the limit.
pub fn has_room(count: u32, more: u32, cells: usize, limit: usize) -> bool
    ensures value { result ≡ nat_le (count + more) (min cells limit) }
    ensures room { result ≡ true → RoomIn cells count more limit }
{
    count as usize + more as usize <= cells.min(limit)
}

impl Counts {
    // Whether the counts lie inside the lists.
    pub fn inside(self, lists: &Lists<'_>) -> bool
        ensures { result ≡ counts_inside (cells_of self lists.now) }
    {
        self.types as usize <= lists.types.len()
            && self.variables as usize <= lists.variables.len()
            && self.arguments as usize <= lists.arguments.len()
            && self.constants as usize <= lists.constants.len()
            && self.expressions as usize <= lists.expressions.len()
            && self.statements as usize <= lists.statements.len()
            && self.brought <= self.expressions
    }

    // The used parts of the lists.
    pub fn used<'a>(self, lists: &'a Lists<'_>) -> UsedLists<'a>
        ensures types { result.types.now ≡ take self.types lists.now.types.now }
        ensures variables { result.variables.now ≡ take self.variables lists.now.variables.now }
        ensures arguments { result.arguments.now ≡ take self.arguments lists.now.arguments.now }
        ensures constants { result.constants.now ≡ take self.constants lists.now.constants.now }
        ensures expressions { result.expressions.now ≡ take self.expressions lists.now.expressions.now }
        ensures statements { result.statements.now ≡ take self.statements lists.now.statements.now }
    {
        UsedLists {
            types: front(lists.types, self.types),
            variables: front(lists.variables, self.variables),
            arguments: front(lists.arguments, self.arguments),
            constants: front(lists.constants, self.constants),
            expressions: front(lists.expressions, self.expressions),
            statements: front(lists.statements, self.statements),
        }
    }
}
