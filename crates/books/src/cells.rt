// Reading a cell that was lent.
ghost use Rattle.std.specs.Prelude.{◌≡◌, None, slice_index_or};

// What cell i holds. A cell that is not there holds nothing.
pub(crate) fn at<C: Copy>(cells: &[Option<C>], i: usize) -> Option<C>
    ensures { result ≡ slice_index_or cells.now i None }
{
    cells.get(i).copied().flatten()
}
