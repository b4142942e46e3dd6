// Id books: a record for each SPIR-V id, in cells that the caller lends.
#![tactic(auto)]

ghost use Rattle.std.specs.Prelude.{◌≡◌};
ghost use Rattle.books.specs.Books.{Book, count, Lawful, Puts};

use records::Error;

mod cells;
mod direct;
mod empty;
mod probing;
mod ring;

pub use direct::DirectBook;
pub use empty::is_empty;
pub use probing::ProbingBook;
pub use ring::Entry;

// The answer to an id that cannot be a new one. A put has no instruction words, so it blames place 0.
const TAKEN: Error = Error::InvalidResultId(0);

// A book by its meaning. Code that is generic over it knows of a book no more than `book` and its laws.
pub trait LookupHelper<R> {
    ghost book: { Self → Book R };

    ghost laws: { Lawful book };

    // The record of an id, if it has one.
    fn find(&self, id: u32) -> Option<R>
        ensures { result ≡ (book self.now).held id };

    // Adds a record under a new id, or refuses and leaves the book as it was.
    fn put(&mut self, id: u32, item: R) -> Result<(), Error>
        ensures { Puts book self.old self.new id item result };

    // The number of records.
    fn size(&self) -> usize
        ensures { result ≡ count (book self.now) };

    // Every legal id is below it, and it never changes.
    fn bound(&self) -> usize
        ensures { result ≡ (book self.now).bound };

    // The most records that there may be. It never changes.
    fn limit(&self) -> usize
        ensures { result ≡ (book self.now).limit };
}
