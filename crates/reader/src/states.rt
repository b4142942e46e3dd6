// The reader's two states. Each is moved by its calls, so that a call in the wrong state does not compile.
ghost use Rattle.std.specs.Prelude.{◌≡◌, ℕ, not, ◌&&◌, Some, None, Option, IfOk};
ghost use Rattle.records.specs.declared.refusals.Error.TheVariants.{Mismatch, Full};
ghost use Rattle.records.specs.Refusals.{check};
ghost use Rattle.memory.specs.Cells.{cells_of};
ghost use Rattle.images.specs.Used.{used_of, used_in};
ghost use Rattle.memory.specs.declared.lists.Counts.{Counts as Numbers};
ghost use Rattle.reader.specs.Checks.{state_inside, new_checks, value_room};
ghost use Rattle.reader.specs.Fits.{ValueFits, NewFits};

use crate::append::unplaced;
use memory::{BlockContext, Counts, IdBooks, Lists, has_room, has_space};
use records::{Error, MAX_EXPRESSIONS, MAX_STATEMENTS, expect};

// Where the open emit range begins: the first expression that no statement covers yet.
#[derive(Drop)]
pub struct Emitter {
    pub start_len: u32,
}

// A reader at rest: it declares.
#[derive(Drop)]
pub struct AtRest {
    pub counts: Counts,
}

// A reader that reads: it brings values and reads instructions.
#[derive(Drop)]
pub struct Reading {
    pub counts: Counts,
    pub emitter: Emitter,
}

// What is checked in both states.
pub(crate) trait ReaderState {
    ghost start: { Self → Option ℕ };

    ghost numbers: { Self → Numbers };

    fn counts(&self) -> Counts
        ensures { result ≡ numbers self.now };

    // Whether its numbers lie inside the lists, and what is held for it is there.
    fn is_inside(&self, lists: &Lists<'_>) -> bool
        ensures { result ≡ state_inside (start self.now) (cells_of (numbers self.now) lists.now) };

    final fn expect_inside(&self, lists: &Lists<'_>) -> Result<(), Error>
        ensures { result ≡ check (not (state_inside (start self.now) (cells_of (numbers self.now) lists.now))) Mismatch }
    {
        expect(self.is_inside(lists), Error::Mismatch)
    }

    // What a call looks up in.
    final fn context<'a, B: IdBooks>(
        &self,
        lists: &'a Lists<'_>,
        books: &'a B,
    ) -> BlockContext<'a, B>
        ensures lists { used_of result.lists ≡ used_in (cells_of (numbers self.now) lists.now) }
        ensures books { result.books.now ≡ books.now }
    {
        self.counts().context(lists, books)
    }

    // What a call that makes a value checks first: its numbers, and that its id is new.
    final fn expect_new<B: IdBooks>(
        &self,
        lists: &Lists<'_>,
        books: &B,
        id: u32,
    ) -> Result<(), Error>
        ensures checks { result ≡ new_checks (start self.now) (cells_of (numbers self.now) lists.now) (B.shelf books.now) id }
        ensures fits { IfOk result (λ _. NewFits (cells_of (numbers self.now) lists.now) (B.shelf books.now) id) }
    {
        self.expect_inside(lists)?;
        books.expect_new_value(unplaced(id))
    }

    // What it checks last, when what the call itself looks for is found: that there is room. `room` is whether its own list,
    // if it has one, has a free cell.
    final fn expect_room<B: IdBooks>(
        &self,
        lists: &Lists<'_>,
        books: &B,
        room: bool,
    ) -> Result<(), Error>
        ensures checks { result ≡ check (not (room && value_room (cells_of (numbers self.now) lists.now) (B.shelf books.now))) Full }
        ensures fits { (id : ℕ) → NewFits (cells_of (numbers self.now) lists.now) (B.shelf books.now) id → IfOk result (λ _. ValueFits (cells_of (numbers self.now) lists.now) (B.shelf books.now) id room) }
    {
        let count = self.counts().expressions;
        let expressions = has_room(count, 1, lists.expressions.len(), MAX_EXPRESSIONS);
        expect(
            room && (expressions && has_space(books.values())),
            Error::Full,
        )
    }
}

impl ReaderState for AtRest {
    ghost start = { λ _. None };

    ghost numbers = { λ s. s.counts };

    fn counts(&self) -> Counts {
        self.counts
    }

    fn is_inside(&self, lists: &Lists<'_>) -> bool {
        self.counts.inside(lists)
    }
}

impl ReaderState for Reading {
    ghost start = { λ s. Some s.emitter.start_len };

    ghost numbers = { λ s. s.counts };

    fn counts(&self) -> Counts {
        self.counts
    }

    // The statement cell that is held for finish is there, too.
    fn is_inside(&self, lists: &Lists<'_>) -> bool {
        let counts = self.counts;
        let held = has_room(counts.statements, 1, lists.statements.len(), MAX_STATEMENTS);
        counts.inside(lists) && (self.emitter.start_len <= counts.expressions && held)
    }
}
