// What an instruction is read in: the used parts of the lists, and the books.
ghost use Rattle.std.specs.Prelude.{◌≡◌, ◌<◌, ◌^◌, length, take};

use crate::lists::{Counts, Lists};
use run::Lists as UsedLists;

// As naga's block context; `Counts::context` makes one.
#[derive(Drop)]
pub struct BlockContext<'a, B> {
    pub lists: UsedLists<'a>,
    pub books: &'a B,
    // the number of a type is a word
    ghost numbered: { length lists.types.now < 2 ^ 32 },
}

impl Counts {
    // What is used of the lists, with the books.
    pub fn context<'a, B>(self, lists: &'a Lists<'_>, books: &'a B) -> BlockContext<'a, B>
        ensures types { result.lists.types.now ≡ take self.types lists.now.types.now }
        ensures variables { result.lists.variables.now ≡ take self.variables lists.now.variables.now }
        ensures arguments { result.lists.arguments.now ≡ take self.arguments lists.now.arguments.now }
        ensures constants { result.lists.constants.now ≡ take self.constants lists.now.constants.now }
        ensures expressions { result.lists.expressions.now ≡ take self.expressions lists.now.expressions.now }
        ensures statements { result.lists.statements.now ≡ take self.statements lists.now.statements.now }
        ensures books { result.books.now ≡ books.now }
    {
        BlockContext {
            lists: self.used(lists),
            books,
        }
    }
}
