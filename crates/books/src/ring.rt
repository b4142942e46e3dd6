// Cells in a ring: where the search for an id begins, how it goes on, and where it ends.
ghost use Rattle.std.specs.Prelude.{◌≡◌, ℕ, ◌<◌, length, None, slice_index_or};
ghost use Rattle.books.specs.Ring.{home, following, ends_at, Sought};

use crate::cells::at;

// What a cell holds that is not free: a record beside its id.
#[derive(Clone, Copy)]
pub struct Entry<R> {
    pub id: u32,
    pub item: R,
}

// The cell at which the search begins. Ids come in runs, and the mix keeps their homes apart.
fn home(id: u32, cells: usize) -> usize
    requires { 0 < cells }
    ensures { result ≡ home cells id }
{
    let mixed = id.wrapping_mul(0x9E37_79B1);
    (mixed ^ (mixed >> 15)) as usize % cells
}

fn following(i: usize, cells: usize) -> usize
    requires { i < cells }
    ensures { result ≡ following cells i }
{
    if i + 1 < cells { i + 1 } else { 0 }
}

// The search ends at a free cell, and at one that holds the id.
fn ends_at<R: Copy>(cell: Option<Entry<R>>, id: u32) -> bool
    ensures { result ≡ ends_at cell id }
{
    cell.is_none_or(|entry| entry.id == id)
}

// The cell at which the search ends, or the number of cells if it ends at none. Whatever the cells hold, it looks at each
// of them once at most.
pub(crate) fn seek<R: Copy>(cells: &[Option<Entry<R>>], id: u32) -> usize
    ensures { Sought (length cells.now) cells.now id result }
{
    let n = cells.len();
    if n == 0 {
        return n;
    }
    let mut i = home(id, n);
    for _passed in 0..n {
        if ends_at(at(cells, i), id) {
            return i;
        }
        i = following(i, n);
    }
    n
}

pub(crate) fn clear<R: Copy>(cells: &mut [Option<Entry<R>>])
    ensures { (i : ℕ) → slice_index_or cells.new i None ≡ None }
{
    cells.fill(None);
}
