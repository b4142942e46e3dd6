// What the three id books hold.
use crate::handles::{ExpressionHandle, TypeHandle};

#[derive(Clone, Copy)]
pub struct LookupType {
    pub handle: TypeHandle,
}

// An id that names a value: its expression and its type.
#[derive(Clone, Copy)]
pub struct LookupExpression {
    pub handle: ExpressionHandle,
    pub ty: TypeHandle,
}

// An id that names a couple: the expressions of its image and its sampler.
#[derive(Clone, Copy)]
pub struct LookupSampledImage {
    pub image: ExpressionHandle,
    pub sampler: ExpressionHandle,
}
