// What the caller lends: six lists and three id books; and what ids and handles name in them.
#![tactic(auto)]

mod context;
mod flags;
mod found;
mod id_books;
mod lists;
mod search;
mod shelf;

pub use context::BlockContext;
pub use found::{FoundType, FoundValue};
pub use id_books::{IdBooks, has_space};
pub use lists::{Counts, Lists, has_room};
pub use search::first_equal;
pub use shelf::Books;
