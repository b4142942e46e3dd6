// How much a list may hold at most, however many cells are lent for it.
pub const MAX_EXPRESSIONS: usize = 65_536;

pub const MAX_STATEMENTS: usize = 65_536;

pub const MAX_VARIABLES: usize = 1_024;

pub const MAX_ARGUMENTS: usize = 255;

pub const MAX_TYPES: usize = 4_096;

pub const MAX_CONSTANTS: usize = 4_096;
