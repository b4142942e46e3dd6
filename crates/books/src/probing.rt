// The probing book: a record stands in the first cell that was free when the search for its id came by.
ghost use Rattle.std.specs.Prelude.{◌≡◌, ℕ, false, length, is_some, None, slice_index_or};
ghost use Rattle.books.specs.Books.{count, empty_book, Outside};
ghost use Rattle.books.specs.Probing.{probing_bound, probing_held, probing_book};
ghost use Rattle.books.specs.Ring.{Reached, Slot, filled};
ghost use Rattle.books.specs.Laws.{none_from, probing_fits};

use crate::cells::at;
use crate::ring::{Entry, clear, seek};
use crate::{LookupHelper, TAKEN};
use records::Error;

// SPIR-V's own limit on the bound of ids.
const BOUND: u32 = 4_194_303;

#[derive(Drop)]
pub struct ProbingBook<'a, R> {
    cells: &'a mut [Option<Entry<R>>],
    // the number of records, and of cells that are not free
    used: usize,
    // the search for the id of each record gets to it, and each of these ids is legal
    ghost reached: { Reached (length cells.now) cells.now },
    ghost inside: { (id : ℕ) → Outside probing_bound id → is_some (probing_held cells.now id) ≡ false },
    ghost counted: { used ≡ count (probing_book cells.now) },
    ghost busy: { used ≡ filled cells.now },
}

impl<'a, R: Copy> ProbingBook<'a, R> {
    // An empty book: whatever the cells held is cleared.
    pub fn new(cells: &'a mut [Option<Entry<R>>]) -> ProbingBook<'a, R>
        ensures { probing_book result.cells.now ≡ empty_book probing_bound (length cells.old) }
    {
        clear(cells);
        ProbingBook { cells, used: 0 }
    }

    fn slot(&self, id: u32) -> usize
        ensures { Slot self.now.cells.now id result }
    {
        seek(self.cells, id)
    }

    fn cell(&self, i: usize) -> Option<Entry<R>>
        ensures { result ≡ slice_index_or self.now.cells.now i None }
    {
        at(self.cells, i)
    }
}

impl<'a, R: Copy> LookupHelper<R> for ProbingBook<'a, R> {
    ghost book = { λ s. probing_book s.cells.now };

    ghost laws = { record { inside = λ s id outside. none_from (probing_held s.cells.now id) (s.inside id outside); fits = λ s. probing_fits s.cells.now s.used s.counted s.busy } };

    fn find(&self, id: u32) -> Option<R> {
        self.cell(self.slot(id)).map(|entry| entry.item)
    }

    fn put(&mut self, id: u32, item: R) -> Result<(), Error> {
        let i = self.slot(id);
        if id == 0 || id >= BOUND || self.cell(i).is_some() {
            return Err(TAKEN);
        }
        if self.used == self.cells.len() {
            return Err(Error::Full);
        }
        self.cells[i] = Some(Entry { id, item });
        self.used += 1;
        Ok(())
    }

    fn size(&self) -> usize {
        self.used
    }

    fn bound(&self) -> usize {
        BOUND as usize
    }

    fn limit(&self) -> usize {
        self.cells.len()
    }
}
