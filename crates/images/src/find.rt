// Which image and sampler an instruction means, and which component it gathers.
ghost use Rattle.std.specs.Prelude.{◌≡◌};
ghost use Rattle.images.specs.Finds.{expression_at, variable_type, argument_type, inner_at, image_type, resource, element_of, resource_at, component_of, component_at};
ghost use Rattle.images.specs.Used.{used_of};

use crate::options::array_base;
use records::{
    Error, Expression, ExpressionHandle, ExpressionTag, FunctionArgumentHandle,
    GlobalVariableHandle, Literal, SwizzleComponent, TypeHandle, TypeInner, expect,
};
use run::Lists as UsedLists;
use units::{Root, bits_of_sint};

// An image or a sampler: the variable or argument that its flags go to, and its type.
#[derive(Clone, Copy)]
pub struct FoundResource {
    pub root: Root,
    pub inner: TypeInner,
}

fn expression_at(lists: UsedLists<'_>, handle: ExpressionHandle) -> Result<Expression, Error>
    ensures { result ≡ expression_at (used_of lists.entry) handle }
{
    let e = lists.expressions.get(handle.index as usize);
    e.copied().ok_or(Error::Mismatch)
}

fn variable_type(lists: UsedLists<'_>, variable: GlobalVariableHandle) -> Result<TypeHandle, Error>
    ensures { result ≡ variable_type (used_of lists.entry) variable }
{
    lists.variable_at(variable).ok_or(Error::Mismatch)
}

fn argument_type(
    lists: UsedLists<'_>,
    argument: FunctionArgumentHandle,
) -> Result<TypeHandle, Error>
    ensures { result ≡ argument_type (used_of lists.entry) argument }
{
    lists.argument_at(argument).ok_or(Error::Mismatch)
}

pub fn inner_at(lists: UsedLists<'_>, ty: TypeHandle) -> Result<TypeInner, Error>
    ensures { result ≡ inner_at (used_of lists.entry) ty }
{
    lists.type_at(ty).ok_or(Error::Mismatch)
}

// The type of the image of a load or store, whose word stands at a place: that of the variable or argument, also under
// elements.
#[tactic(auto, using(crate::proofs::Fuel::image_type_is))]
pub fn get_image_expr_ty(
    lists: UsedLists<'_>,
    place: usize,
    handle: ExpressionHandle,
) -> Result<TypeHandle, Error>
    ensures { result ≡ image_type (used_of lists.entry) place handle.index }
{
    let e = expression_at(lists, handle)?;
    match e.tag {
        ExpressionTag::GlobalVariable => variable_type(lists, e.variable),
        ExpressionTag::FunctionArgument => argument_type(lists, e.argument),
        ExpressionTag::Access => {
            expect(e.base.index < handle.index, Error::Mismatch)?;
            get_image_expr_ty(lists, place, e.base)
        }
        _ => Err(Error::InvalidImageExpression(place)),
    }
}

fn resource(lists: UsedLists<'_>, root: Root, ty: TypeHandle) -> Result<FoundResource, Error>
    ensures { result ≡ resource (used_of lists.entry) root ty }
{
    let inner = inner_at(lists, ty)?;
    Ok(FoundResource { root, inner })
}

// An element of this expression, which has to be a variable.
fn element_of(lists: UsedLists<'_>, place: usize, base: Expression) -> Result<FoundResource, Error>
    ensures { result ≡ element_of (used_of lists.entry) place base base.tag }
{
    match base.tag {
        ExpressionTag::GlobalVariable => {
            let ty = variable_type(lists, base.variable)?;
            let array = inner_at(lists, ty)?;
            let element = array_base(array).ok_or(Error::InvalidGlobalVar(place))?;
            resource(lists, Root::Variable(base.variable), element)
        }
        _ => Err(Error::InvalidGlobalVar(place)),
    }
}

// The image or sampler of a sample or gather.
pub fn find_resource(
    lists: UsedLists<'_>,
    place: usize,
    handle: ExpressionHandle,
) -> Result<FoundResource, Error>
    ensures { result ≡ resource_at (used_of lists.entry) place handle }
{
    let e = expression_at(lists, handle)?;
    match e.tag {
        ExpressionTag::GlobalVariable => {
            let ty = variable_type(lists, e.variable)?;
            resource(lists, Root::Variable(e.variable), ty)
        }
        ExpressionTag::FunctionArgument => {
            let ty = argument_type(lists, e.argument)?;
            resource(lists, Root::Argument(e.argument), ty)
        }
        ExpressionTag::Access => {
            let base = expression_at(lists, e.base)?;
            element_of(lists, place, base)
        }
        _ => Err(Error::InvalidGlobalVar(place)),
    }
}

fn component_of(literal: Literal) -> Option<SwizzleComponent>
    ensures { result ≡ component_of literal }
{
    let number = match literal {
        Literal::U32(number) => number,
        Literal::I32(number) => bits_of_sint(number),
        Literal::F32(_) => return None,
    };
    SwizzleComponent::try_from(number).ok()
}

// The component of a gather, whose word stands at a place.
pub fn find_component(
    lists: UsedLists<'_>,
    place: usize,
    handle: ExpressionHandle,
) -> Result<SwizzleComponent, Error>
    ensures { result ≡ component_at (used_of lists.entry) place handle }
{
    let e = expression_at(lists, handle)?;
    match e.tag {
        ExpressionTag::Constant => {
            let literal = lists.constant_at(e.constant).ok_or(Error::Mismatch)?;
            component_of(literal).ok_or(Error::InvalidOperand(place))
        }
        _ => Err(Error::InvalidOperand(place)),
    }
}
