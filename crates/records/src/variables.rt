// Variables and arguments: textures, samplers and arrays of them, with how they were sampled.
use crate::flags::SamplingFlags;
use crate::handles::TypeHandle;

#[derive(Clone, Copy)]
pub struct GlobalVariable {
    pub ty: TypeHandle,
    pub flags: SamplingFlags,
}

#[derive(Clone, Copy)]
pub struct FunctionArgument {
    pub ty: TypeHandle,
    pub flags: SamplingFlags,
}
