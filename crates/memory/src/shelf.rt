// The caller's three id books, each of its own sort.
ghost use Rattle.memory.specs.Shelves.{shelf_of, shelf_of_lawful};

use crate::id_books::IdBooks;
use books::LookupHelper;
use records::{Error, LookupExpression, LookupSampledImage, LookupType};

pub struct Books<T, V, C> {
    pub types: T,
    pub values: V,
    pub couples: C,
}

impl<
    T: LookupHelper<LookupType>,
    V: LookupHelper<LookupExpression>,
    C: LookupHelper<LookupSampledImage>,
> IdBooks for Books<T, V, C> {
    type Types = T;

    type Values = V;

    type Couples = C;

    ghost shelf = { shelf_of T.LookupHelper.book V.LookupHelper.book C.LookupHelper.book };

    ghost laws = { shelf_of_lawful T.LookupHelper.book V.LookupHelper.book C.LookupHelper.book T.LookupHelper.laws V.LookupHelper.laws C.LookupHelper.laws };

    fn types(&self) -> &T {
        &self.types
    }

    fn values(&self) -> &V {
        &self.values
    }

    fn couples(&self) -> &C {
        &self.couples
    }

    fn put_type(&mut self, id: u32, item: LookupType) -> Result<(), Error> {
        self.types.put(id, item)
    }

    fn put_value(&mut self, id: u32, item: LookupExpression) -> Result<(), Error> {
        self.values.put(id, item)
    }

    fn put_couple(&mut self, id: u32, item: LookupSampledImage) -> Result<(), Error> {
        self.couples.put(id, item)
    }
}
