// The two passes over the expressions: the first finds where a run would halt, the second works out the values.
ghost use Rattle.std.specs.Prelude.{◌≡◌, ◌≤◌, [], ◌++◌, length, drop};
ghost use Rattle.run.specs.Checks.{expressions_halt};
ghost use Rattle.run.specs.Envs.{env_of};
ghost use Rattle.run.specs.Runs.{halt_by, halt_of, or_halt, worked, input_at};
ghost use Rattle.run.specs.Rules.{seen};
ghost use Rattle.run.specs.Statics.{known_by};
ghost use Rattle.run.specs.Worth.{worth};

use crate::before::Before;
use crate::checks::check_each;
use crate::lists::Lists;
use crate::rules::Miss;
use crate::worth::work_out;
use records::Expression;
use units::{Components, TextureUnit, Value};

// Why a run ends before the end of the expressions.
#[derive(Clone, Copy)]
pub enum Halt {
    // this expression lacks a value, a component or a type that it needs
    Stuck(usize),
    // this statement, a store, lacks one
    StuckAtStore(usize),
    // a number lies outside the used lists
    Outside,
    // an input is missing, or is of another type than its Supplied record
    WrongInput,
}

impl Miss {
    // What it halts a run by, at expression i.
    fn halt(self, i: usize) -> Halt
        ensures { result ≡ halt_by self i }
    {
        match self {
            Miss::Lacking => Halt::Stuck(i),
            Miss::Outside => Halt::Outside,
        }
    }
}

impl Before<'_> {
    // Whether expression i, of which this is the record, lets a run go on.
    fn check(self, e: Expression) -> Result<(), Halt>
        ensures { result ≡ or_halt (halt_of (seen (env_of self.entry.lists) (known_by self.entry) e) self.entry.i) }
    {
        match self.see(e) {
            Ok(_) => Ok(()),
            Err(miss) => Err(miss.halt(self.i)),
        }
    }
}

impl Lists<'_> {
    // The first pass: the first expression that has no type decides. Nothing is written.
    pub fn check_expressions(self) -> Result<(), Halt>
        ensures { result ≡ or_halt (expressions_halt self.entry) }
    {
        check_each(
            self.expressions,
            |i, e| (Before { lists: self, i }).check(e),
        )
    }
}

// The second pass: every expression in order, from the values before it.
pub(crate) fn fill_values<U: TextureUnit>(
    lists: Lists<'_>,
    unit: &U,
    inputs: &[Components],
    values: &mut [Value],
)
    requires { length lists.expressions.now ≤ length values.old }
    ensures { values.new ≡ worked (worth (env_of lists.entry) (U.answers unit.now) (input_at inputs.now)) [] lists.entry.expressions.now ++ drop (length lists.entry.expressions.now) values.old }
{
    for (i, e) in lists.expressions.iter().enumerate() {
        values[i] = work_out(lists, unit, inputs, &values[..i], *e);
    }
}
