// Asking how a variable or argument was sampled.
ghost use Rattle.std.specs.Prelude.{◌≡◌};
ghost use Rattle.memory.specs.Asks.{variable_flags, argument_flags};
ghost use Rattle.memory.specs.Cells.{cells_of};

use crate::lists::{Counts, Lists};
use records::{Error, FunctionArgumentHandle, GlobalVariableHandle, SamplingFlags, expect};

impl Counts {
    pub fn variable_flags(
        self,
        lists: &Lists<'_>,
        variable: GlobalVariableHandle,
    ) -> Result<SamplingFlags, Error>
        ensures { result ≡ variable_flags (cells_of self lists.now) variable.index }
    {
        expect(self.inside(lists), Error::Mismatch)?;
        let used = self.used(lists);
        let variable = used.variables.get(variable.index as usize);
        variable.map(|v| v.flags).ok_or(Error::InvalidId(0))
    }

    pub fn argument_flags(
        self,
        lists: &Lists<'_>,
        argument: FunctionArgumentHandle,
    ) -> Result<SamplingFlags, Error>
        ensures { result ≡ argument_flags (cells_of self lists.now) argument.index }
    {
        expect(self.inside(lists), Error::Mismatch)?;
        let used = self.used(lists);
        let argument = used.arguments.get(argument.index as usize);
        argument.map(|a| a.flags).ok_or(Error::InvalidId(0))
    }
}
