// Stores: whether each has what it needs, and the requests that they list.
ghost use Rattle.std.specs.Prelude.{◌≡◌, ◌≤◌, ◌++◌, length, drop};
ghost use Rattle.run.specs.Checks.{known_to_stores, stores_halt};
ghost use Rattle.run.specs.Envs.{env_of};
ghost use Rattle.run.specs.Runs.{or_halt, value_at};
ghost use Rattle.run.specs.Statics.{known_by};
ghost use Rattle.run.specs.Stores.{store_fits, store_halt, store_request_of, stores, store_count};

use crate::before::Before;
use crate::checks::check_each;
use crate::lists::Lists;
use crate::passes::Halt;
use crate::requests::{components_at, image_request};
use crate::types::texel_type;
use records::{ExpressionHandle, Statement, TypeInner};
use units::{Request, Sort, Value};

impl Before<'_> {
    fn store_fits(
        self,
        image: Option<TypeInner>,
        coordinate: ExpressionHandle,
        layer: Option<ExpressionHandle>,
        value: ExpressionHandle,
    ) -> bool
        ensures { result ≡ store_fits (known_by self.entry) image coordinate layer value }
    {
        let Some(
            TypeInner::Image {
                dim,
                arrayed,
                class,
            },
        ) = image
        else {
            return false;
        };
        let texel = texel_type(class);
        self.is_integer_place(coordinate, dim)
            && self.layer_fits(arrayed, layer)
            && self.is(value, texel)
    }
}

impl Lists<'_> {
    // Whether statement j lets a run go on.
    fn check_store(self, j: usize, statement: Statement) -> Result<(), Halt>
        ensures { result ≡ or_halt (store_halt (env_of self.entry) (known_to_stores self.entry) j statement) }
    {
        let Statement::ImageStore {
            image,
            coordinate,
            array_index,
            value,
        } = statement
        else {
            return Ok(());
        };
        if !(self.has(image)
            && self.has(coordinate)
            && self.has_option(array_index)
            && self.has(value))
        {
            return Err(Halt::Outside);
        }
        let all = Before {
            lists: self,
            i: self.expressions.len(),
        };
        if all.store_fits(all.type_of(image), coordinate, array_index, value) {
            Ok(())
        } else {
            Err(Halt::StuckAtStore(j))
        }
    }

    // The first store that a run would halt at decides.
    pub fn check_stores(self) -> Result<(), Halt>
        ensures { result ≡ or_halt (stores_halt self.entry) }
    {
        check_each(
            self.statements,
            |j, statement| self.check_store(j, statement),
        )
    }
}

// The request that a statement lists, if it lists one, made again from the values that a run wrote.
pub fn store_request_of(values: &[Value], statement: Statement) -> Option<Request>
    ensures { result ≡ store_request_of (value_at values.now) statement }
{
    let Statement::ImageStore {
        image,
        coordinate,
        array_index,
        value,
    } = statement
    else {
        return None;
    };
    Some(Request {
        value: Some(components_at(values, value)),
        ..image_request(values, Sort::Store, image, coordinate, array_index)
    })
}

pub fn store_count(statements: &[Statement]) -> usize
    ensures { result ≡ store_count statements.now }
{
    statements
        .iter()
        .filter(|statement| matches!(statement, Statement::ImageStore { .. }))
        .count()
}

// The store requests, in the order of the statements.
pub(crate) fn fill_stores(statements: &[Statement], values: &[Value], requests: &mut [Request])
    requires { store_count statements.now ≤ length requests.old }
    ensures { requests.new ≡ stores (value_at values.now) statements.now ++ drop (store_count statements.now) requests.old }
{
    let mut k = 0;
    for statement in statements {
        let Some(request) = store_request_of(values, *statement) else {
            continue;
        };
        requests[k] = request;
        k += 1;
    }
}
