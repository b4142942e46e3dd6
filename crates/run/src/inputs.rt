// Inputs: whether each Supplied record has one of its type.
ghost use Rattle.std.specs.Prelude.{◌≡◌};
ghost use Rattle.run.specs.Checks.{inputs_halt};
ghost use Rattle.run.specs.Envs.{env_of};
ghost use Rattle.run.specs.Inputs.{input_type, input_halt};
ghost use Rattle.run.specs.Runs.{or_halt};

use crate::checks::check_each;
use crate::lists::Lists;
use crate::passes::Halt;
use records::{Expression, ExpressionTag, TypeInner};
use units::{Components, Value};

fn input_type(inputs: &[Components], number: u32) -> Option<TypeInner>
    ensures { result ≡ input_type inputs.now number }
{
    let input = *inputs.get(number as usize)?;
    Some(Value::Number(input).ty())
}

impl Lists<'_> {
    fn check_input(self, inputs: &[Components], e: Expression) -> Result<(), Halt>
        ensures { result ≡ or_halt (input_halt (env_of self.entry) inputs.now e e.tag) }
    {
        let ExpressionTag::Supplied = e.tag else {
            return Ok(());
        };
        let ty = self.type_at(e.ty).ok_or(Halt::Outside)?;
        if input_type(inputs, e.index) == Some(ty) {
            Ok(())
        } else {
            Err(Halt::WrongInput)
        }
    }

    // The first record whose input is missing or of another type decides.
    pub fn check_inputs(self, inputs: &[Components]) -> Result<(), Halt>
        ensures { result ≡ or_halt (inputs_halt self.entry inputs.now) }
    {
        check_each(self.expressions, |_, e| self.check_input(inputs, e))
    }
}
