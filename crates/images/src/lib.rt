// Image instructions: which images and operands are right, and what is to be appended for them.
#![tactic(auto)]

mod counts;
mod couples;
mod find;
mod instructions;
mod loads;
mod operands;
mod options;
mod places;
mod plans;
mod samples;
mod stores;
mod texels;

pub use counts::place_count;
pub use couples::parse_image_couple;
pub use instructions::{Plan, parse_image_instruction};
pub use loads::parse_image_load;
pub use options::{ImageShape, SamplingOptions, array_base, place_size, sampling_of};
pub use plans::{ExtraCoordinate, LoadPlan, SamplePlan, Split, StorePlan};
pub use samples::parse_image_sample;
pub use stores::parse_image_write;
