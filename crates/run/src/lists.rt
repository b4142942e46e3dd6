// The used parts of the lists that a run reads.
ghost use Rattle.std.specs.Prelude.{◌≡◌};
ghost use Rattle.run.specs.Envs.{env_of};

use records::{
    Constant, ConstantHandle, Expression, FunctionArgument, FunctionArgumentHandle, GlobalVariable,
    GlobalVariableHandle, Literal, Statement, TypeHandle, TypeInner,
};

#[derive(Clone, Copy)]
pub struct Lists<'a> {
    pub types: &'a [TypeInner],
    pub variables: &'a [GlobalVariable],
    pub arguments: &'a [FunctionArgument],
    pub constants: &'a [Constant],
    pub expressions: &'a [Expression],
    pub statements: &'a [Statement],
}

impl Lists<'_> {
    pub fn type_at(self, handle: TypeHandle) -> Option<TypeInner>
        ensures { result ≡ (env_of self.entry).types handle.index }
    {
        self.types.get(handle.index as usize).copied()
    }

    pub fn variable_at(self, handle: GlobalVariableHandle) -> Option<TypeHandle>
        ensures { result ≡ (env_of self.entry).variables handle.index }
    {
        let variable = self.variables.get(handle.index as usize)?;
        Some(variable.ty)
    }

    pub fn argument_at(self, handle: FunctionArgumentHandle) -> Option<TypeHandle>
        ensures { result ≡ (env_of self.entry).arguments handle.index }
    {
        let argument = self.arguments.get(handle.index as usize)?;
        Some(argument.ty)
    }

    pub fn constant_at(self, handle: ConstantHandle) -> Option<Literal>
        ensures { result ≡ (env_of self.entry).constants handle.index }
    {
        let constant = self.constants.get(handle.index as usize)?;
        Some(constant.value)
    }
}
