// Set-up, start and finish: the turns from one state to the other.
ghost use Rattle.std.specs.Prelude.{◌≡◌, if◌then◌else◌, Some, None, nat_lt};
ghost use Rattle.memory.specs.Shelves.{Shelf};
ghost use Rattle.memory.specs.Cells.{cells_of};
ghost use Rattle.reader.specs.States.{at_rest, reading};
ghost use Rattle.reader.specs.Turns.{set_up, start_checks, starts, after_start, emit, finishes, after_finish};

use crate::states::{AtRest, Emitter, ReaderState, Reading};
use books::is_empty;
use memory::{Counts, IdBooks, Lists, has_room};
use records::{EmitRange, Error, MAX_STATEMENTS, Statement, expect};

impl Emitter {
    // The statement that covers the range up to the last expression, unless the range is empty.
    pub(crate) fn finish(&self, expressions: u32) -> Option<Statement>
        ensures { result ≡ (if nat_lt self.now.start_len expressions then Some (emit self.now.start_len expressions) else None) }
    {
        let range = EmitRange {
            first: self.start_len,
            end: expressions,
        };
        (range.first < range.end).then_some(Statement::Emit(range))
    }
}

// A reader at rest over empty lists and empty books.
pub fn set_up<B: IdBooks>(books: &B) -> Result<AtRest, Error>
    ensures { result ≡ set_up (B.shelf books.now) }
{
    let empty = is_empty(books.types()) && is_empty(books.values()) && is_empty(books.couples());
    expect(empty, Error::Mismatch)?;
    Ok(AtRest {
        counts: Counts::default(),
    })
}

impl AtRest {
    fn plan_start(&self, lists: &Lists<'_>) -> Result<(), Error>
        ensures { result ≡ start_checks (cells_of self.now.counts lists.now) }
    {
        self.expect_inside(lists)?;
        let room = has_room(
            self.counts.statements,
            1,
            lists.statements.len(),
            MAX_STATEMENTS,
        );
        expect(room, Error::Full)
    }

    // Opens an emit range, for which one statement cell is held.
    pub fn start(self, lists: &Lists<'_>) -> Result<Reading, (AtRest, Error)>
        ensures { (books : Shelf) → after_start result lists.now books ≡ starts (at_rest self lists.now books) }
    {
        if let Err(error) = self.plan_start(lists) {
            return Err((self, error));
        }
        let counts = self.counts;
        let emitter = Emitter {
            start_len: counts.expressions,
        };
        Ok(Reading { counts, emitter })
    }
}

impl Reading {
    // Closes the emit range.
    pub fn finish(self, lists: &mut Lists<'_>) -> Result<AtRest, (Reading, Error)>
        ensures { (books : Shelf) → after_finish result lists.new books ≡ finishes (reading self lists.old books) }
    {
        if let Err(error) = self.expect_inside(lists) {
            return Err((self, error));
        }
        let mut reader = self;
        reader.close_range(lists);
        Ok(AtRest {
            counts: reader.counts,
        })
    }
}
