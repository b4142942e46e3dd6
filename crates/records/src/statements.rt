// Statements: a range of expressions to work out, or a store.
use crate::handles::ExpressionHandle;

// The expressions from the first on, up to the end, which is not among them.
#[derive(Clone, Copy)]
pub struct EmitRange {
    pub first: u32,
    pub end: u32,
}

#[derive(Clone, Copy)]
pub enum Statement {
    Emit(EmitRange),
    ImageStore {
        image: ExpressionHandle,
        coordinate: ExpressionHandle,
        array_index: Option<ExpressionHandle>,
        value: ExpressionHandle,
    },
}
