// Declaring, at rest: types, variables, arguments and constants.
ghost use Rattle.std.specs.Prelude.{◌≡◌, length, None, IfOk};
ghost use Rattle.memory.specs.Cells.{cells_of};
ghost use Rattle.reader.specs.States.{at_rest};
ghost use Rattle.reader.specs.Declares.{type_checks, type_placed, type_handle, declares_type, declares_variable, declares_argument, literal_for, declares_constant};
ghost use Rattle.reader.specs.Checks.{max_types};
ghost use Rattle.reader.specs.Fits.{TypeFits};
ghost use Rattle.memory.specs.Rooms.{RoomIn};

use crate::append::{append_value, push, unplaced};
use crate::states::{AtRest, ReaderState};
use crate::types::{TypeDeclaration, declared_inner, find_resource};
use memory::{BlockContext, IdBooks, Lists, has_room, has_space};
use records::{
    Constant, ConstantHandle, Error, Expression, FunctionArgument, FunctionArgumentHandle,
    GlobalVariable, GlobalVariableHandle, Literal, LookupExpression, LookupType, MAX_ARGUMENTS,
    MAX_CONSTANTS, MAX_TYPES, MAX_VARIABLES, SamplingFlags, TypeHandle, TypeInner, expect,
};
use run::literal_type;

// A type to be declared, and the number of an equal one, if there is one.
#[derive(Clone, Copy)]
pub struct TypePlan {
    pub inner: TypeInner,
    pub found: Option<u32>,
}

// The type of a constant: the scalar of its literal.
fn find_scalar<B: IdBooks>(
    ctx: &BlockContext<'_, B>,
    id: u32,
    literal: Literal,
) -> Result<TypeHandle, Error>
    ensures { result ≡ literal_for ctx.now.lists.types.now (B.shelf ctx.now.books.now) id literal }
{
    let found = ctx.find_type(unplaced(id))?;
    let right = found.inner == literal_type(literal);
    expect(right, Error::InvalidType(0))?;
    Ok(found.handle)
}

impl AtRest {
    fn plan_type<B: IdBooks>(
        &self,
        lists: &Lists<'_>,
        books: &B,
        id: u32,
        declaration: TypeDeclaration,
    ) -> Result<TypePlan, Error>
        ensures checks { result ≡ type_checks (cells_of self.now.counts lists.now) (B.shelf books.now) id declaration }
        ensures fits { IfOk result (λ p. TypeFits (cells_of self.now.counts lists.now) (B.shelf books.now) id p) }
    {
        self.expect_inside(lists)?;
        expect(books.is_new_type(id), Error::InvalidResultId(0))?;
        let ctx = self.context(lists, books);
        let inner = declared_inner(&ctx, declaration)?;
        let found = ctx.first_equal(inner);
        let room = found.is_some() || has_room(self.counts.types, 1, lists.types.len(), MAX_TYPES);
        expect(room && has_space(books.types()), Error::Full)?;
        Ok(TypePlan { inner, found })
    }

    // The handle of a type: that of the equal one, or it is appended.
    fn place_type(&mut self, lists: &mut Lists<'_>, plan: TypePlan) -> TypeHandle
        requires { plan.found ≡ None → RoomIn (length lists.old.types.now) self.old.counts.types 1 max_types }
        ensures cells { cells_of self.new.counts lists.new ≡ type_placed (cells_of self.old.counts lists.old) plan.inner plan.found }
        ensures handle { result ≡ type_handle (cells_of self.old.counts lists.old) plan.found }
    {
        let index = match plan.found {
            Some(index) => index,
            None => push(lists.types, &mut self.counts.types, plan.inner),
        };
        TypeHandle { index }
    }

    fn add_type<B: IdBooks>(
        &mut self,
        lists: &mut Lists<'_>,
        books: &mut B,
        id: u32,
        declaration: TypeDeclaration,
    ) -> Result<TypeHandle, Error>
        ensures state { at_rest self.new lists.new (B.shelf books.new) ≡ (declares_type (at_rest self.old lists.old (B.shelf books.old)) id declaration).state }
        ensures answer { result ≡ (declares_type (at_rest self.old lists.old (B.shelf books.old)) id declaration).answer }
    {
        let plan = self.plan_type(lists, books, id, declaration)?;
        let handle = self.place_type(lists, plan);
        books.put_type(id, LookupType { handle }).unwrap();
        Ok(handle)
    }

    fn add_variable<B: IdBooks>(
        &mut self,
        lists: &mut Lists<'_>,
        books: &mut B,
        id: u32,
        ty: u32,
    ) -> Result<LookupExpression, Error>
        ensures state { at_rest self.new lists.new (B.shelf books.new) ≡ (declares_variable (at_rest self.old lists.old (B.shelf books.old)) id ty).state }
        ensures answer { result ≡ (declares_variable (at_rest self.old lists.old (B.shelf books.old)) id ty).answer }
    {
        self.expect_new(lists, books, id)?;
        let ty = find_resource(&self.context(lists, books), ty)?;
        let room = has_room(
            self.counts.variables,
            1,
            lists.variables.len(),
            MAX_VARIABLES,
        );
        self.expect_room(lists, books, room)?;
        let variable = GlobalVariable {
            ty,
            flags: SamplingFlags::EMPTY,
        };
        let index = push(lists.variables, &mut self.counts.variables, variable);
        let expression = Expression::global_variable(GlobalVariableHandle { index });
        Ok(append_value(&mut self.counts, lists, books, id, expression, ty))
    }

    fn add_argument<B: IdBooks>(
        &mut self,
        lists: &mut Lists<'_>,
        books: &mut B,
        id: u32,
        ty: u32,
    ) -> Result<LookupExpression, Error>
        ensures state { at_rest self.new lists.new (B.shelf books.new) ≡ (declares_argument (at_rest self.old lists.old (B.shelf books.old)) id ty).state }
        ensures answer { result ≡ (declares_argument (at_rest self.old lists.old (B.shelf books.old)) id ty).answer }
    {
        self.expect_new(lists, books, id)?;
        let ty = find_resource(&self.context(lists, books), ty)?;
        let room = has_room(
            self.counts.arguments,
            1,
            lists.arguments.len(),
            MAX_ARGUMENTS,
        );
        self.expect_room(lists, books, room)?;
        let argument = FunctionArgument {
            ty,
            flags: SamplingFlags::EMPTY,
        };
        let index = push(lists.arguments, &mut self.counts.arguments, argument);
        let expression = Expression::function_argument(FunctionArgumentHandle { index });
        Ok(append_value(&mut self.counts, lists, books, id, expression, ty))
    }

    fn add_constant<B: IdBooks>(
        &mut self,
        lists: &mut Lists<'_>,
        books: &mut B,
        id: u32,
        ty: u32,
        literal: Literal,
    ) -> Result<LookupExpression, Error>
        ensures state { at_rest self.new lists.new (B.shelf books.new) ≡ (declares_constant (at_rest self.old lists.old (B.shelf books.old)) id ty literal).state }
        ensures answer { result ≡ (declares_constant (at_rest self.old lists.old (B.shelf books.old)) id ty literal).answer }
    {
        self.expect_new(lists, books, id)?;
        let ty = find_scalar(&self.context(lists, books), ty, literal)?;
        let room = has_room(
            self.counts.constants,
            1,
            lists.constants.len(),
            MAX_CONSTANTS,
        );
        self.expect_room(lists, books, room)?;
        let constant = Constant { ty, value: literal };
        let index = push(lists.constants, &mut self.counts.constants, constant);
        let expression = Expression::constant(ConstantHandle { index });
        Ok(append_value(&mut self.counts, lists, books, id, expression, ty))
    }
}

// The public calls: each moves the reader, and hands it back with the answer.
impl AtRest {
    // Declares a type under a new id. An equal type is found again and used.
    pub fn declare_type<B: IdBooks>(
        self,
        lists: &mut Lists<'_>,
        books: &mut B,
        id: u32,
        declaration: TypeDeclaration,
    ) -> (AtRest, Result<TypeHandle, Error>)
        ensures state { at_rest result.0 lists.new (B.shelf books.new) ≡ (declares_type (at_rest self lists.old (B.shelf books.old)) id declaration).state }
        ensures answer { result.1 ≡ (declares_type (at_rest self lists.old (B.shelf books.old)) id declaration).answer }
    {
        let mut reader = self;
        let answer = reader.add_type(lists, books, id, declaration);
        (reader, answer)
    }

    // Declares a variable: an image, a sampler or a binding array.
    pub fn declare_variable<B: IdBooks>(
        self,
        lists: &mut Lists<'_>,
        books: &mut B,
        id: u32,
        ty: u32,
    ) -> (AtRest, Result<LookupExpression, Error>)
        ensures state { at_rest result.0 lists.new (B.shelf books.new) ≡ (declares_variable (at_rest self lists.old (B.shelf books.old)) id ty).state }
        ensures answer { result.1 ≡ (declares_variable (at_rest self lists.old (B.shelf books.old)) id ty).answer }
    {
        let mut reader = self;
        let answer = reader.add_variable(lists, books, id, ty);
        (reader, answer)
    }

    // Declares an argument, likewise.
    pub fn declare_argument<B: IdBooks>(
        self,
        lists: &mut Lists<'_>,
        books: &mut B,
        id: u32,
        ty: u32,
    ) -> (AtRest, Result<LookupExpression, Error>)
        ensures state { at_rest result.0 lists.new (B.shelf books.new) ≡ (declares_argument (at_rest self lists.old (B.shelf books.old)) id ty).state }
        ensures answer { result.1 ≡ (declares_argument (at_rest self lists.old (B.shelf books.old)) id ty).answer }
    {
        let mut reader = self;
        let answer = reader.add_argument(lists, books, id, ty);
        (reader, answer)
    }

    // Declares a constant: a scalar of the kind of its literal.
    pub fn declare_constant<B: IdBooks>(
        self,
        lists: &mut Lists<'_>,
        books: &mut B,
        id: u32,
        ty: u32,
        literal: Literal,
    ) -> (AtRest, Result<LookupExpression, Error>)
        ensures state { at_rest result.0 lists.new (B.shelf books.new) ≡ (declares_constant (at_rest self lists.old (B.shelf books.old)) id ty literal).state }
        ensures answer { result.1 ≡ (declares_constant (at_rest self lists.old (B.shelf books.old)) id ty literal).answer }
    {
        let mut reader = self;
        let answer = reader.add_constant(lists, books, id, ty, literal);
        (reader, answer)
    }
}
