// The run: works out every expression of the lists, asks a texture unit, and lists the stores.
#![tactic(auto)]

mod before;
mod checks;
mod fits;
mod inputs;
mod inside;
mod laws;
mod lists;
mod passes;
mod requests;
mod rules;
mod runs;
mod sights;
mod statics;
mod stores;
mod types;
mod worth;

pub use before::Before;
pub use laws::laws_stand;
pub use lists::Lists;
pub use passes::Halt;
pub use requests::request_of;
pub use rules::{Miss, is_integer_place, is_integer_scalar, place_type};
pub use runs::{Outcome, run};
pub use statics::{is_depth, literal_type};
pub use stores::store_request_of;
pub use types::{class_kind, count_in, is_float, is_integer, kind_in, texel_type};
