// What an id names: it is looked up in its book, and what the book says must lie inside the used lists.
ghost use Rattle.std.specs.Prelude.{◌≡◌, length};
ghost use Rattle.memory.specs.Lookups.{type_for, value_for};

use crate::context::BlockContext;
use crate::id_books::IdBooks;
use records::{Error, ExpressionHandle, TypeHandle, TypeInner};
use words::IdRef;

// A type that an id names.
#[derive(Clone, Copy)]
pub struct FoundType {
    pub handle: TypeHandle,
    pub inner: TypeInner,
}

// A value that an id names: its expression and its type.
#[derive(Clone, Copy)]
pub struct FoundValue {
    pub handle: ExpressionHandle,
    pub ty: TypeHandle,
    pub inner: TypeInner,
}

impl<B: IdBooks> BlockContext<'_, B> {
    pub fn find_type(&self, id: IdRef) -> Result<FoundType, Error>
        ensures { result ≡ type_for self.now.lists.types.now (B.shelf self.now.books.now) id.place id.id }
    {
        self.books.find_type(self.lists, id)
    }

    pub fn find_value(&self, id: IdRef) -> Result<FoundValue, Error>
        ensures { result ≡ value_for self.now.lists.types.now (length self.now.lists.expressions.now) (B.shelf self.now.books.now) id.place id.id }
    {
        self.books.find_value(self.lists, id)
    }
}
