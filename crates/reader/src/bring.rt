// Bringing, while reading: values that come from outside the image instructions, and elements of binding arrays.
ghost use Rattle.std.specs.Prelude.{◌≡◌, length};
ghost use Rattle.reader.specs.States.{reading};
ghost use Rattle.reader.specs.Brings.{number_for, brings_value, element_for, brings_element};

use crate::append::{append_value, unplaced};
use crate::states::{ReaderState, Reading};
use crate::types::is_resource;
use images::array_base;
use memory::{BlockContext, IdBooks, Lists};
use records::{Error, Expression, ExpressionHandle, LookupExpression, TypeHandle, expect};
use run::is_integer_scalar;

// An element of a binding array: the expressions of its base and its index, and its type.
#[derive(Clone, Copy)]
pub struct Element {
    pub base: ExpressionHandle,
    pub index: ExpressionHandle,
    pub ty: TypeHandle,
}

// The type of a brought value: a scalar or vector.
fn find_number<B: IdBooks>(ctx: &BlockContext<'_, B>, id: u32) -> Result<TypeHandle, Error>
    ensures { result ≡ number_for ctx.now.lists.types.now (B.shelf ctx.now.books.now) id }
{
    let found = ctx.find_type(unplaced(id))?;
    expect(!is_resource(found.inner), Error::InvalidType(0))?;
    Ok(found.handle)
}

fn find_element<B: IdBooks>(
    ctx: &BlockContext<'_, B>,
    base: u32,
    index: u32,
) -> Result<Element, Error>
    ensures { result ≡ element_for ctx.now.lists.types.now (length ctx.now.lists.expressions.now) (B.shelf ctx.now.books.now) base index }
{
    let base = ctx.find_value(unplaced(base))?;
    let index = ctx.find_value(unplaced(index))?;
    let ty = array_base(base.inner).ok_or(Error::InvalidType(0))?;
    expect(ctx.lists.type_at(ty).is_some(), Error::Mismatch)?;
    expect(
        is_integer_scalar(Some(index.inner)),
        Error::InvalidOperand(0),
    )?;
    Ok(Element {
        base: base.handle,
        index: index.handle,
        ty,
    })
}

impl Reading {
    fn add_value<B: IdBooks>(
        &mut self,
        lists: &mut Lists<'_>,
        books: &mut B,
        id: u32,
        ty: u32,
    ) -> Result<LookupExpression, Error>
        ensures state { reading self.new lists.new (B.shelf books.new) ≡ (brings_value (reading self.old lists.old (B.shelf books.old)) id ty).state }
        ensures answer { result ≡ (brings_value (reading self.old lists.old (B.shelf books.old)) id ty).answer }
    {
        self.expect_new(lists, books, id)?;
        let ty = find_number(&self.context(lists, books), ty)?;
        self.expect_room(lists, books, true)?;
        let expression = Expression::supplied(ty, self.counts.brought);
        self.counts.brought += 1;
        Ok(append_value(&mut self.counts, lists, books, id, expression, ty))
    }

    fn add_element<B: IdBooks>(
        &mut self,
        lists: &mut Lists<'_>,
        books: &mut B,
        id: u32,
        base: u32,
        index: u32,
    ) -> Result<LookupExpression, Error>
        ensures state { reading self.new lists.new (B.shelf books.new) ≡ (brings_element (reading self.old lists.old (B.shelf books.old)) id base index).state }
        ensures answer { result ≡ (brings_element (reading self.old lists.old (B.shelf books.old)) id base index).answer }
    {
        self.expect_new(lists, books, id)?;
        let element = find_element(&self.context(lists, books), base, index)?;
        self.expect_room(lists, books, true)?;
        let expression = Expression::access(element.base, element.index);
        Ok(append_value(&mut self.counts, lists, books, id, expression, element.ty))
    }

    // Brings a value: in a run it is the next input.
    pub fn bring_value<B: IdBooks>(
        self,
        lists: &mut Lists<'_>,
        books: &mut B,
        id: u32,
        ty: u32,
    ) -> (Reading, Result<LookupExpression, Error>)
        ensures state { reading result.0 lists.new (B.shelf books.new) ≡ (brings_value (reading self lists.old (B.shelf books.old)) id ty).state }
        ensures answer { result.1 ≡ (brings_value (reading self lists.old (B.shelf books.old)) id ty).answer }
    {
        let mut reader = self;
        let answer = reader.add_value(lists, books, id, ty);
        (reader, answer)
    }

    // Brings an element of a binding array.
    pub fn bring_element<B: IdBooks>(
        self,
        lists: &mut Lists<'_>,
        books: &mut B,
        id: u32,
        base: u32,
        index: u32,
    ) -> (Reading, Result<LookupExpression, Error>)
        ensures state { reading result.0 lists.new (B.shelf books.new) ≡ (brings_element (reading self lists.old (B.shelf books.old)) id base index).state }
        ensures answer { result.1 ≡ (brings_element (reading self lists.old (B.shelf books.old)) id base index).answer }
    {
        let mut reader = self;
        let answer = reader.add_element(lists, books, id, base, index);
        (reader, answer)
    }
}
