// What every layer shares: refusals, handles, types and records.
#![tactic(auto)]

mod constants;
mod expressions;
mod flags;
mod handles;
mod laws;
mod limits;
mod lookups;
mod numbers;
mod refusals;
mod same;
mod statements;
mod types;
mod variables;

pub use constants::{Constant, Literal};
pub use expressions::{Expression, ExpressionTag, ImageParts, SampleLevel, SwizzleComponent};
pub use flags::{SamplingFlags, flags_stand};
pub use handles::{
    ConstantHandle, ExpressionHandle, FunctionArgumentHandle, GlobalVariableHandle, TypeHandle,
};
pub use laws::laws_stand;
pub use limits::{
    MAX_ARGUMENTS, MAX_CONSTANTS, MAX_EXPRESSIONS, MAX_STATEMENTS, MAX_TYPES, MAX_VARIABLES,
};
pub use lookups::{LookupExpression, LookupSampledImage, LookupType};
pub use numbers::UnknownNumber;
pub use refusals::{Error, Fault, Layer, expect};
pub use same::{same_class, same_type};
pub use statements::{EmitRange, Statement};
pub use types::{ImageClass, ImageDimension, ScalarKind, TypeInner, VectorSize};
pub use variables::{FunctionArgument, GlobalVariable};
