// Whether the numbers that a record names lie inside the used lists.
ghost use Rattle.std.specs.Prelude.{◌≡◌};
ghost use Rattle.run.specs.Envs.{env_of};
ghost use Rattle.run.specs.Rules.{inside_one, inside_option, inside_level, inside_components, inside_image, inside_tag, inside_result};

use crate::lists::Lists;
use crate::rules::{none_or, of_first};
use records::{Expression, ExpressionHandle, ExpressionTag, SampleLevel, TypeHandle, VectorSize};

impl Lists<'_> {
    pub fn has(self, handle: ExpressionHandle) -> bool
        ensures { result ≡ inside_one (env_of self.entry) handle }
    {
        (handle.index as usize) < self.expressions.len()
    }

    pub fn has_option(self, handle: Option<ExpressionHandle>) -> bool
        ensures { result ≡ inside_option (env_of self.entry) handle }
    {
        none_or(handle, |handle| self.has(handle))
    }

    fn has_level(self, level: SampleLevel) -> bool
        ensures { result ≡ inside_level (env_of self.entry) level }
    {
        match level {
            SampleLevel::Auto | SampleLevel::Zero => true,
            SampleLevel::Exact(level) | SampleLevel::Bias(level) => self.has(level),
            SampleLevel::Gradient { x, y } => self.has(x) && self.has(y),
        }
    }

    fn has_components(self, size: VectorSize, components: [ExpressionHandle; 4]) -> bool
        ensures { result ≡ inside_components (env_of self.entry) size components }
    {
        of_first(size, components, |component| self.has(component))
    }

    fn has_image(self, e: Expression) -> bool
        ensures { result ≡ inside_image (env_of self.entry) e }
    {
        let image = e.image;
        self.has(e.base)
            && self.has(image.coordinate)
            && self.has_option(image.array_index)
            && self.has_option(image.offset)
            && self.has_level(image.level)
            && self.has_option(image.depth_ref)
            && self.has_option(image.sample)
            && self.has_option(image.lod)
    }

    pub fn has_result(self, handle: Option<TypeHandle>) -> bool
        ensures { result ≡ inside_result (env_of self.entry) handle }
    {
        none_or(handle, |handle| self.type_at(handle).is_some())
    }

    // Whether all numbers that the record uses lie inside.
    pub fn has_numbers(self, e: Expression) -> bool
        ensures { result ≡ inside_tag (env_of self.entry) e e.tag }
    {
        match e.tag {
            ExpressionTag::GlobalVariable => self.variable_at(e.variable).is_some(),
            ExpressionTag::FunctionArgument => self.argument_at(e.argument).is_some(),
            ExpressionTag::Constant => self.constant_at(e.constant).is_some(),
            ExpressionTag::Supplied => self.type_at(e.ty).is_some(),
            ExpressionTag::Compose => self.type_at(e.ty).is_some()
                && self.has_components(e.size, e.components),
            ExpressionTag::Access | ExpressionTag::Divide => self.has(e.base) && self.has(e.other),
            ExpressionTag::ImageSample => self.has(e.other) && self.has_image(e),
            ExpressionTag::ImageLoad => self.has_image(e),
            _ => self.has(e.base),
        }
    }
}
