// Samples and gathers: what their ids name, and whether all of it fits.
ghost use Rattle.std.specs.Prelude.{◌≡◌};
ghost use Rattle.images.specs.Used.{used_of};
ghost use Rattle.images.specs.Plans.{gather_for, reference_for, sample_finds, grad_level, level_of, sampling_flag, sample_plan, sample_fitted, sample_read, sampler_fits};

use crate::find::{FoundResource, find_component, find_resource};
use crate::operands::{
    FoundGradient, FoundOperands, Operand, expect_float, find_operands, handle_of, optional,
};
use crate::options::{SamplingOptions, expect_image, sampling_of};
use crate::places::ImagePlace;
use crate::plans::{SamplePlan, Split};
use books::LookupHelper;
use memory::{BlockContext, FoundType, IdBooks};
use records::{
    Error, LookupSampledImage, SampleLevel, SamplingFlags, SwizzleComponent, TypeInner, VectorSize,
    expect,
};
use run::{is_depth, is_float};
use units::Root;
use words::{IdRef, Instruction, Layout};

// What the ids of a sample or gather name.
#[derive(Clone, Copy)]
pub struct SampleParts {
    pub operands: FoundOperands,
    pub couple: LookupSampledImage,
    pub place: ImagePlace,
    pub gather: Option<SwizzleComponent>,
    pub image: Root,
    pub sampler: Root,
    pub reference: Option<Operand>,
    pub result: FoundType,
}

fn find_gather<B: IdBooks>(
    ctx: &BlockContext<'_, B>,
    options: SamplingOptions,
    id: IdRef,
    layout: Layout,
) -> Result<Option<SwizzleComponent>, Error>
    ensures { result ≡ gather_for (used_of ctx.now.lists) (B.shelf ctx.now.books.now) options id layout }
{
    match layout {
        Layout::Component => {
            let component = ctx.find_value(id)?;
            Ok(Some(find_component(ctx.lists, id.place, component.handle)?))
        }
        _ => Ok(options.gather.then_some(SwizzleComponent::X)),
    }
}

fn find_reference<B: IdBooks>(
    ctx: &BlockContext<'_, B>,
    options: SamplingOptions,
    id: IdRef,
) -> Result<Option<Operand>, Error>
    ensures { result ≡ reference_for (used_of ctx.now.lists) (B.shelf ctx.now.books.now) options id }
{
    optional(ctx, options.compare.then_some(id))
}

fn expect_sampler(found: FoundResource, place: usize) -> Result<(), Error>
    ensures { result ≡ sampler_fits found place }
{
    expect(
        found.inner == TypeInner::Sampler,
        Error::InvalidGlobalVar(place),
    )
}

fn find_sample<B: IdBooks>(
    ctx: &BlockContext<'_, B>,
    instruction: Instruction,
) -> Result<SampleParts, Error>
    ensures { result ≡ sample_finds (used_of ctx.now.lists) (B.shelf ctx.now.books.now) instruction }
{
    let options = sampling_of(instruction.opcode);
    let ids = instruction.ids;
    let place = ids.image.place;
    ctx.books.expect_new_value(ids.result)?;
    let operands = find_operands(ctx, instruction.operands)?;
    let couple = ctx.books.couples().find(ids.image.id);
    let couple = couple.ok_or(Error::InvalidId(place))?;
    let coordinate = ctx.find_value(ids.coordinate)?;
    let layout = instruction.opcode.row().layout;
    let gather = find_gather(ctx, options, ids.component, layout)?;
    let image = find_resource(ctx.lists, place, couple.image)?;
    let sampler = find_resource(ctx.lists, place, couple.sampler)?;
    expect_sampler(sampler, place)?;
    let shape = expect_image(place, image.inner)?;
    expect(options.allows(shape), Error::InvalidImage(place))?;
    let reference = find_reference(ctx, options, ids.reference)?;
    let result = ctx.find_type(ids.result_type)?;
    Ok(SampleParts {
        operands,
        couple,
        place: ImagePlace {
            shape,
            project: options.project,
            coordinate,
            word: ids.coordinate.place,
        },
        gather,
        image: image.root,
        sampler: sampler.root,
        reference,
        result,
    })
}

fn grad_level(grad: Option<FoundGradient>) -> SampleLevel
    ensures { result ≡ grad_level grad }
{
    match grad {
        Some(grad) => SampleLevel::Gradient {
            x: grad.x.value.handle,
            y: grad.y.value.handle,
        },
        None => SampleLevel::Auto,
    }
}

impl SamplingOptions {
    // The level: gathers and explicit comparing samples ask Zero.
    fn level(self, operands: FoundOperands) -> SampleLevel
        ensures { result ≡ level_of self operands }
    {
        if self.gather {
            return SampleLevel::Zero;
        }
        if let Some(bias) = operands.bias {
            return SampleLevel::Bias(bias.value.handle);
        }
        if self.compare {
            return match (operands.lod, operands.grad) {
                (None, None) => SampleLevel::Auto,
                _ => SampleLevel::Zero,
            };
        }
        match operands.lod {
            Some(lod) => SampleLevel::Exact(lod.value.handle),
            None => grad_level(operands.grad),
        }
    }

    // How the image and the sampler are sampled.
    fn flag(self) -> SamplingFlags
        ensures { result ≡ sampling_flag self }
    {
        if self.compare {
            SamplingFlags::COMPARISON
        } else {
            SamplingFlags::REGULAR
        }
    }

    fn plan(self, parts: SampleParts, split: Split) -> SamplePlan
        ensures { result ≡ sample_plan self parts split }
    {
        let class = parts.place.shape.class;
        let splats = !(self.compare || self.gather) && is_depth(class);
        SamplePlan {
            split,
            image: parts.couple.image,
            sampler: parts.couple.sampler,
            image_root: parts.image,
            sampler_root: parts.sampler,
            flag: self.flag(),
            gather: parts.gather,
            offset: handle_of(parts.operands.offset),
            level: self.level(parts.operands),
            reference: handle_of(parts.reference),
            splat: splats.then_some(VectorSize::Quad),
            result: parts.result.handle,
        }
    }
}

fn fit_sample<B: IdBooks>(
    ctx: &BlockContext<'_, B>,
    instruction: Instruction,
    parts: SampleParts,
) -> Result<SamplePlan, Error>
    ensures { result ≡ sample_fitted (used_of ctx.now.lists) instruction parts }
{
    let options = sampling_of(instruction.opcode);
    let place = parts.place;
    parts.operands.expect_types(false, place.shape.dim)?;
    expect_float(parts.reference)?;
    place.expect_fits(is_float(place.kind()))?;
    let fits = parts.result.inner == options.result(place.shape.class);
    expect(fits, Error::InvalidType(instruction.ids.result_type.place))?;
    let split = place.find_split(ctx)?;
    Ok(options.plan(parts, split))
}

// A sample or gather: every check but that of room, in the order of the refusals.
pub fn parse_image_sample<B: IdBooks>(
    ctx: &BlockContext<'_, B>,
    instruction: Instruction,
) -> Result<SamplePlan, Error>
    ensures { result ≡ sample_read (used_of ctx.now.lists) (B.shelf ctx.now.books.now) instruction }
{
    let parts = find_sample(ctx, instruction)?;
    fit_sample(ctx, instruction, parts)
}
