// Whether a book is empty.
ghost use Rattle.std.specs.Prelude.{◌≡◌, ℕ, true, false, is_some, None, ◌==◌};
ghost use Rattle.books.specs.Books.{count};

use crate::LookupHelper;

// Whether no id has a record.
pub fn is_empty<R: Copy, B: LookupHelper<R>>(book: &B) -> bool
    ensures counts { result ≡ (count (B.LookupHelper.book book.now) == 0) }
    ensures none { result ≡ true → (id : ℕ) → (B.LookupHelper.book book.now).held id ≡ None }
    ensures some { result ≡ false → (id : ℕ) × (is_some ((B.LookupHelper.book book.now).held id) ≡ true) }
{
    book.size() == 0
}
