// The reader of image instructions: its two states, and the calls on them.
#![tactic(auto)]

mod append;
mod arena;
mod bring;
mod commit;
mod commits;
mod declare;
mod mark;
mod read;
mod split;
mod states;
mod turn;
mod types;

pub use states::{AtRest, Emitter, Reading};
pub use turn::set_up;
pub use types::TypeDeclaration;
