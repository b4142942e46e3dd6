// One record more in a list, and one value more, which an id names.
ghost use Rattle.std.specs.Prelude.{◌≡◌, ◌+◌, ◌<◌, not, true, length, slice_set};
ghost use Rattle.books.specs.Books.{taken};
ghost use Rattle.memory.specs.Cells.{cells_of};
ghost use Rattle.memory.specs.Lookups.{has_space};
ghost use Rattle.reader.specs.Checks.{max_expressions};
ghost use Rattle.memory.specs.Rooms.{RoomIn};
ghost use Rattle.reader.specs.Updates.{push_expression, put_value, lookup_at};

use memory::{Counts, IdBooks, Lists};
use records::{Expression, ExpressionHandle, LookupExpression, TypeHandle};
use words::IdRef;

// The id of a call that has no words: it blames place 0.
pub(crate) fn unplaced(id: u32) -> IdRef
    ensures { result ≡ record { id = id; place = 0 } }
{
    IdRef { id, place: 0 }
}

// Appends a record to a list of which `count` cells are used, and answers its number.
pub(crate) fn push<T: Copy>(cells: &mut [T], count: &mut u32, item: T) -> u32
    requires lent { count.old < length cells.old }
    requires counted { count.old < u32.MAX }
    ensures cells { cells.new ≡ slice_set cells.old count.old item }
    ensures count { count.new ≡ count.old + 1 }
    ensures number { result ≡ count.old }
{
    let number = *count;
    cells[number as usize] = item;
    *count = number + 1;
    number
}

// Appends an expression, and has a new id name it.
pub(crate) fn append_value<B: IdBooks>(
    counts: &mut Counts,
    lists: &mut Lists<'_>,
    books: &mut B,
    id: u32,
    expression: Expression,
    ty: TypeHandle,
) -> LookupExpression
    requires room { RoomIn (length lists.old.expressions.now) counts.old.expressions 1 max_expressions }
    requires new { not (taken (B.shelf books.old).values id) ≡ true }
    requires space { has_space (B.shelf books.old).values ≡ true }
    ensures value { result ≡ lookup_at counts.old.expressions ty }
    ensures appended { cells_of counts.new lists.new ≡ push_expression (cells_of counts.old lists.old) expression }
    ensures named { B.shelf books.new ≡ put_value (B.shelf books.old) id (lookup_at counts.old.expressions ty) }
{
    let index = push(lists.expressions, &mut counts.expressions, expression);
    let lookup = LookupExpression {
        handle: ExpressionHandle { index },
        ty,
    };
    books.put_value(id, lookup).unwrap();
    lookup
}
