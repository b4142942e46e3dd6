// Places in the lists. A handle of one list is a type of its own, so it is never taken for a handle of another.
#[derive(Clone, Copy, PartialEq, Eq)]
pub struct TypeHandle {
    pub index: u32,
}

#[derive(Clone, Copy, PartialEq, Eq)]
pub struct ExpressionHandle {
    pub index: u32,
}

#[derive(Clone, Copy, PartialEq, Eq)]
pub struct GlobalVariableHandle {
    pub index: u32,
}

#[derive(Clone, Copy, PartialEq, Eq)]
pub struct FunctionArgumentHandle {
    pub index: u32,
}

#[derive(Clone, Copy, PartialEq, Eq)]
pub struct ConstantHandle {
    pub index: u32,
}
