// Constants: a literal and its type.
use crate::handles::TypeHandle;

#[derive(Clone, Copy)]
pub enum Literal {
    U32(u32),
    I32(i32),
    F32(f32),
}

#[derive(Clone, Copy)]
pub struct Constant {
    pub ty: TypeHandle,
    pub value: Literal,
}
