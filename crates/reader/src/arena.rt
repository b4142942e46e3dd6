// The caller's list of expressions, as naga's Arena: an expression is appended, and a handle names it.
ghost use Rattle.std.specs.Prelude.{◌≡◌, [], ◌∷◌};
ghost use Rattle.images.specs.Records.{at};
ghost use Rattle.reader.specs.Writes.{Room, Appends};

use records::{Expression, ExpressionHandle};

// The first `used` cells have an expression.
#[derive(Drop)]
pub(crate) struct Arena<'a> {
    pub cells: &'a mut [Expression],
    pub used: u32,
}

impl<'a> Arena<'a> {
    pub(crate) fn append(&mut self, expression: Expression) -> ExpressionHandle
        requires { Room self.old 1 }
        ensures appended { Appends self.old self.new (expression ∷ []) 1 }
        ensures handle { result ≡ at self.old.used }
    {
        let handle = ExpressionHandle { index: self.used };
        self.cells[self.used as usize] = expression;
        self.used += 1;
        handle
    }
}
