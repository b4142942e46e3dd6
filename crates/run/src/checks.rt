// Checks over a list: what halts a run first.
ghost use Rattle.std.specs.Prelude.{◌≡◌, ℕ, Option};
ghost use Rattle.run.specs.declared.passes.Halt.{Halt as Halts};
ghost use Rattle.run.specs.Runs.{or_halt, first_halt};

use crate::passes::Halt;

// The first item that fails a check decides; a check sees an item with its number.
pub(crate) fn check_each<T: Copy, F: Fn(usize, T) -> Result<(), Halt>>(
    items: &[T],
    check: F,
) -> Result<(), Halt>
    requires { F.IsAlwaysCallable check }
    ensures { (f : ℕ → T → Option Halts) → ((i : ℕ) (x : T) (r : _) → F.post check i x r → r ≡ or_halt (f i x)) → result ≡ or_halt (first_halt f 0 items.now) }
{
    for (i, item) in items.iter().enumerate() {
        check(i, *item)?;
    }
    Ok(())
}
