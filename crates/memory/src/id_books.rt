// The three id books by their meaning: of types, of values, and of couples of an image and a sampler.
ghost use Rattle.std.specs.Prelude.{◌≡◌, not, ◌&&◌, ◌||◌, length, ◌==◌, nat_le};
ghost use Rattle.records.specs.declared.refusals.Error.TheVariants.{InvalidResultId};
ghost use Rattle.records.specs.Refusals.{check};
ghost use Rattle.books.specs.Books.{count, Puts};
ghost use Rattle.memory.specs.Shelves.{Shelf, LawfulShelf};
ghost use Rattle.memory.specs.Lookups.{new_type, new_value, new_couple, is_new, is_free, type_for, value_for};

use crate::found::{FoundType, FoundValue};
use books::LookupHelper;
use records::{Error, LookupExpression, LookupSampledImage, LookupType, expect};
use run::Lists as UsedLists;
use words::IdRef;

// Code that is generic over it knows of the books no more than `shelf` and its laws.
pub trait IdBooks {
    type Types: LookupHelper<LookupType>;

    type Values: LookupHelper<LookupExpression>;

    type Couples: LookupHelper<LookupSampledImage>;

    ghost shelf: { Self → Shelf };

    ghost laws: { LawfulShelf shelf };

    fn types(&self) -> &Self::Types
        ensures { Self.Types.LookupHelper.book result.now ≡ (shelf self.now).types };

    fn values(&self) -> &Self::Values
        ensures { Self.Values.LookupHelper.book result.now ≡ (shelf self.now).values };

    fn couples(&self) -> &Self::Couples
        ensures { Self.Couples.LookupHelper.book result.now ≡ (shelf self.now).couples };

    // A put is that of its own book; the two others stay.
    fn put_type(&mut self, id: u32, item: LookupType) -> Result<(), Error>
        ensures puts { Puts (λ s. (shelf s).types) self.old self.new id item result }
        ensures others { shelf self.new ≡ record (shelf self.old) { types = (shelf self.new).types } };

    fn put_value(&mut self, id: u32, item: LookupExpression) -> Result<(), Error>
        ensures puts { Puts (λ s. (shelf s).values) self.old self.new id item result }
        ensures others { shelf self.new ≡ record (shelf self.old) { values = (shelf self.new).values } };

    fn put_couple(&mut self, id: u32, item: LookupSampledImage) -> Result<(), Error>
        ensures puts { Puts (λ s. (shelf s).couples) self.old self.new id item result }
        ensures others { shelf self.new ≡ record (shelf self.old) { couples = (shelf self.new).couples } };

    // Whether an id is in no book.
    final fn is_free(&self, id: u32) -> bool
        ensures { result ≡ is_free (shelf self.now) id }
    {
        self.types().find(id).is_none()
            && self.values().find(id).is_none()
            && self.couples().find(id).is_none()
    }

    // Whether an id can be a new one: it is legal in its own book, and in no book.
    final fn is_new_type(&self, id: u32) -> bool
        ensures { result ≡ new_type (shelf self.now) id }
    {
        is_new(self.types(), self.values(), self.couples(), id)
    }

    final fn is_new_value(&self, id: u32) -> bool
        ensures { result ≡ new_value (shelf self.now) id }
    {
        is_new(self.values(), self.types(), self.couples(), id)
    }

    final fn is_new_couple(&self, id: u32) -> bool
        ensures { result ≡ new_couple (shelf self.now) id }
    {
        is_new(self.couples(), self.types(), self.values(), id)
    }

    final fn expect_new_value(&self, id: IdRef) -> Result<(), Error>
        ensures { result ≡ check (not (new_value (shelf self.now) id.id)) (InvalidResultId id.place) }
    {
        expect(self.is_new_value(id.id), Error::InvalidResultId(id.place))
    }

    // The type of an id, whose word stands at a place.
    final fn find_type(&self, lists: UsedLists<'_>, id: IdRef) -> Result<FoundType, Error>
        ensures { result ≡ type_for lists.entry.types.now (shelf self.now) id.place id.id }
    {
        let IdRef { id, place } = id;
        let lookup = self.types().find(id).ok_or(Error::InvalidId(place))?;
        let inner = lists.type_at(lookup.handle).ok_or(Error::Mismatch)?;
        Ok(FoundType {
            handle: lookup.handle,
            inner,
        })
    }

    // The value of an id, whose word stands at a place.
    final fn find_value(&self, lists: UsedLists<'_>, id: IdRef) -> Result<FoundValue, Error>
        ensures { result ≡ value_for lists.entry.types.now (length lists.entry.expressions.now) (shelf self.now) id.place id.id }
    {
        let IdRef { id, place } = id;
        let lookup = self.values().find(id).ok_or(Error::InvalidId(place))?;
        let used = (lookup.handle.index as usize) < lists.expressions.len();
        expect(used, Error::Mismatch)?;
        let inner = lists.type_at(lookup.ty).ok_or(Error::Mismatch)?;
        Ok(FoundValue {
            handle: lookup.handle,
            ty: lookup.ty,
            inner,
        })
    }
}

// Whether a book takes an id at all.
fn is_legal<R, B: LookupHelper<R>>(book: &B, id: u32) -> bool
    ensures { result ≡ not (id == 0 || nat_le (B.LookupHelper.book book.now).bound id) }
{
    id != 0 && (id as usize) < book.bound()
}

// Whether an id is legal in its own book, and in no book. Its own book is asked first, since a taken id mostly stands there.
fn is_new<R: Drop, S: Drop, Q: Drop, A: LookupHelper<R>, B: LookupHelper<S>, C: LookupHelper<Q>>(
    own: &A,
    second: &B,
    third: &C,
    id: u32,
) -> bool
    ensures { result ≡ is_new (A.LookupHelper.book own.now) (B.LookupHelper.book second.now) (C.LookupHelper.book third.now) id }
{
    is_legal(own, id)
        && own.find(id).is_none()
        && second.find(id).is_none()
        && third.find(id).is_none()
}

// Whether a record more fits into a book.
pub fn has_space<R, B: LookupHelper<R>>(book: &B) -> bool
    ensures { result ≡ not (count (B.LookupHelper.book book.now) == (B.LookupHelper.book book.now).limit) }
{
    book.size() != book.limit()
}
