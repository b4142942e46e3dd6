// The operands after a mask: looked up, and held to their types.
ghost use Rattle.std.specs.Prelude.{◌≡◌, Bool, MatchOption};
ghost use Rattle.images.specs.Operands.{operand, gradient, optional, optional_grad, operands_for, handle_of, typed_by, bias_fits, lod_fits, grads_fit, operands_fit};
ghost use Rattle.images.specs.Used.{used_of};

use crate::options::{grad_fits, is_float_scalar, is_int_scalar, offset_fits};
use memory::{BlockContext, FoundValue, IdBooks};
use records::{Error, ExpressionHandle, ImageDimension, TypeInner, expect};
use words::{Gradient, IdRef, ImageOperands};

// A value that an operand names, and the place of its word.
#[derive(Clone, Copy)]
pub struct Operand {
    pub value: FoundValue,
    pub place: usize,
}

#[derive(Clone, Copy)]
pub struct FoundGradient {
    pub x: Operand,
    pub y: Operand,
}

// The operands by the names of their bits.
#[derive(Clone, Copy)]
pub struct FoundOperands {
    pub bias: Option<Operand>,
    pub lod: Option<Operand>,
    pub grad: Option<FoundGradient>,
    pub offset: Option<Operand>,
    pub sample: Option<Operand>,
}

fn find_operand<B: IdBooks>(ctx: &BlockContext<'_, B>, id: IdRef) -> Result<Operand, Error>
    ensures { result ≡ operand (used_of ctx.now.lists) (B.shelf ctx.now.books.now) id }
{
    let value = ctx.find_value(id)?;
    Ok(Operand {
        value,
        place: id.place,
    })
}

fn find_gradient<B: IdBooks>(
    ctx: &BlockContext<'_, B>,
    grad: Gradient,
) -> Result<FoundGradient, Error>
    ensures { result ≡ gradient (used_of ctx.now.lists) (B.shelf ctx.now.books.now) grad }
{
    let x = find_operand(ctx, grad.x)?;
    let y = find_operand(ctx, grad.y)?;
    Ok(FoundGradient { x, y })
}

pub fn optional<B: IdBooks>(
    ctx: &BlockContext<'_, B>,
    id: Option<IdRef>,
) -> Result<Option<Operand>, Error>
    ensures { result ≡ optional (used_of ctx.now.lists) (B.shelf ctx.now.books.now) id }
{
    match id {
        Some(id) => find_operand(ctx, id).map(Some),
        None => Ok(None),
    }
}

fn optional_grad<B: IdBooks>(
    ctx: &BlockContext<'_, B>,
    grad: Option<Gradient>,
) -> Result<Option<FoundGradient>, Error>
    ensures { result ≡ optional_grad (used_of ctx.now.lists) (B.shelf ctx.now.books.now) grad }
{
    match grad {
        Some(grad) => find_gradient(ctx, grad).map(Some),
        None => Ok(None),
    }
}

// Looks the operands up by rising bit.
pub fn find_operands<B: IdBooks>(
    ctx: &BlockContext<'_, B>,
    operands: ImageOperands,
) -> Result<FoundOperands, Error>
    ensures { result ≡ operands_for (used_of ctx.now.lists) (B.shelf ctx.now.books.now) operands }
{
    let bias = optional(ctx, operands.bias)?;
    let lod = optional(ctx, operands.lod)?;
    let grad = optional_grad(ctx, operands.grad)?;
    let offset = optional(ctx, operands.const_offset)?;
    let sample = optional(ctx, operands.sample)?;
    Ok(FoundOperands {
        bias,
        lod,
        grad,
        offset,
        sample,
    })
}

// The handle of an operand.
pub fn handle_of(operand: Option<Operand>) -> Option<ExpressionHandle>
    ensures { result ≡ handle_of operand }
{
    operand.map(|operand| operand.value.handle)
}

// An operand, if it is there, has to have a right type.
fn expect_typed<F: Fn(TypeInner) -> bool>(operand: Option<Operand>, right: F) -> Result<(), Error>
    requires { F.IsAlwaysCallable right }
    ensures { MatchOption operand (result ≡ Ok tt) (λ o. (b : Bool) × F.post right o.value.inner b × (result ≡ typed_by b o)) }
{
    match operand {
        Some(Operand { value, place }) => expect(right(value.inner), Error::InvalidOperand(place)),
        None => Ok(()),
    }
}

// Bias, and a depth reference.
pub fn expect_float(operand: Option<Operand>) -> Result<(), Error>
    ensures { result ≡ bias_fits operand }
{
    expect_typed(operand, is_float_scalar)
}

// The Lod of a load is an integer.
fn expect_lod(load: bool, lod: Option<Operand>) -> Result<(), Error>
    ensures { result ≡ lod_fits load lod }
{
    if load {
        expect_typed(lod, is_int_scalar)
    } else {
        expect_typed(lod, is_float_scalar)
    }
}

fn expect_grad(dim: ImageDimension, grad: Option<FoundGradient>) -> Result<(), Error>
    ensures { result ≡ grads_fit dim grad }
{
    expect_typed(grad.map(|grad| grad.x), |ty| grad_fits(dim, ty))?;
    expect_typed(grad.map(|grad| grad.y), |ty| grad_fits(dim, ty))
}

impl FoundOperands {
    // The operands have to have the types that they need, by rising bit.
    pub fn expect_types(self, load: bool, dim: ImageDimension) -> Result<(), Error>
        ensures { result ≡ operands_fit load dim self }
    {
        expect_float(self.bias)?;
        expect_lod(load, self.lod)?;
        expect_grad(dim, self.grad)?;
        expect_typed(self.offset, |ty| offset_fits(dim, ty))?;
        expect_typed(self.sample, is_int_scalar)
    }
}
