// A whole run over lists of records.
ghost use Rattle.std.specs.Prelude.{◌≡◌, length};
ghost use Rattle.run.specs.Checks.{lists_halt};
ghost use Rattle.run.specs.Ends.{end_of, after_lists, over};
ghost use Rattle.run.specs.Runs.{or_halt};

use crate::lists::Lists;
use crate::passes::{Halt, fill_values};
use crate::stores::{fill_stores, store_count};
use records::Error;
use units::{Components, Request, TextureUnit, Value};

// How a run that is not refused ends.
#[derive(Clone, Copy)]
pub enum Outcome {
    Done,
    // the number of the expression
    StuckAtExpression(usize),
    // the number of the statement, counted over all statements
    StuckAtStore(usize),
}

impl Halt {
    fn end(self) -> Result<Outcome, Error>
        ensures { result ≡ end_of self }
    {
        match self {
            Halt::Stuck(i) => Ok(Outcome::StuckAtExpression(i)),
            Halt::StuckAtStore(j) => Ok(Outcome::StuckAtStore(j)),
            Halt::Outside => Err(Error::Mismatch),
            Halt::WrongInput => Err(Error::InvalidType(0)),
        }
    }
}

impl Lists<'_> {
    // All that can halt a run, in order: the inputs, the expressions, the stores.
    fn check(self, inputs: &[Components]) -> Result<(), Halt>
        ensures { result ≡ or_halt (lists_halt self.entry inputs.now) }
    {
        self.check_inputs(inputs)?;
        self.check_expressions()?;
        self.check_stores()
    }
}

// Works out every expression in order, asking the unit, then lists the stores. A run that is refused or sticks writes
// nothing, and cells past what is written stay as they were.
pub fn run<U: TextureUnit>(
    lists: Lists<'_>,
    inputs: &[Components],
    unit: &U,
    values: &mut [Value],
    requests: &mut [Request],
) -> Result<Outcome, Error>
    ensures answer { result ≡ (after_lists lists.entry (U.answers unit.now) inputs.now (length values.old) (length requests.old)).answer }
    ensures written { values.new ≡ over (after_lists lists.entry (U.answers unit.now) inputs.now (length values.old) (length requests.old)).values values.old }
    ensures listed { requests.new ≡ over (after_lists lists.entry (U.answers unit.now) inputs.now (length values.old) (length requests.old)).requests requests.old }
{
    let n = lists.expressions.len();
    if values.len() < n || requests.len() < store_count(lists.statements) {
        return Err(Error::Full);
    }
    if let Err(halt) = lists.check(inputs) {
        return halt.end();
    }
    fill_values(lists, unit, inputs, values);
    fill_stores(lists.statements, &values[..n], requests);
    Ok(Outcome::Done)
}
