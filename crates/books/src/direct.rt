// The direct book: id i lives in cell i.
ghost use Rattle.std.specs.Prelude.{◌≡◌, is_some, drop};
ghost use Rattle.std.specs.List.{count_by};
ghost use Rattle.books.specs.Books.{count};
ghost use Rattle.books.specs.Direct.{direct_book};
ghost use Rattle.books.specs.Laws.{direct_inside, direct_fits};

use crate::cells::at;
use crate::{LookupHelper, TAKEN};
use records::Error;

// How many records there are: what stands in cell 0 is none.
fn count_records<R: Copy>(cells: &[Option<R>]) -> usize
    ensures { result ≡ count_by is_some (drop 1 cells.now) }
{
    cells.iter().skip(1).filter(|cell| cell.is_some()).count()
}

#[derive(Drop)]
pub struct DirectBook<'a, R> {
    cells: &'a mut [Option<R>],
    // the number of records
    used: usize,
    ghost counted: { used ≡ count (direct_book cells.now) },
}

impl<'a, R: Copy> DirectBook<'a, R> {
    // A book over the cells as they are: a record that stands in cell i already is the record of id i.
    pub fn new(cells: &'a mut [Option<R>]) -> DirectBook<'a, R>
        ensures { direct_book result.cells.now ≡ direct_book cells.old }
    {
        let used = count_records(cells);
        DirectBook { cells, used }
    }
}

impl<'a, R: Copy> LookupHelper<R> for DirectBook<'a, R> {
    ghost book = { λ s. direct_book s.cells.now };

    ghost laws = { record { inside = λ s id. direct_inside s.cells.now id; fits = λ s. direct_fits s.cells.now } };

    fn find(&self, id: u32) -> Option<R> {
        if id == 0 {
            None
        } else {
            at(self.cells, id as usize)
        }
    }

    // A legal id that is not present leaves room for its record, so the book never answers that it is full.
    fn put(&mut self, id: u32, item: R) -> Result<(), Error> {
        if id == 0 || id as usize >= self.cells.len() || self.find(id).is_some() {
            return Err(TAKEN);
        }
        self.cells[id as usize] = Some(item);
        self.used += 1;
        Ok(())
    }

    fn size(&self) -> usize {
        self.used
    }

    fn bound(&self) -> usize {
        self.cells.len()
    }

    fn limit(&self) -> usize {
        self.cells.len().saturating_sub(1)
    }
}
