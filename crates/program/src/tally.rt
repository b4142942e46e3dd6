// How many calls of a script came to what.
use std::fmt;

#[derive(Clone, Copy, Default)]
pub struct Tally {
    pub accepted: u64,
    pub refused: u64,
    pub not_made: u64,
    pub bad_lines: u64,
}

impl fmt::Display for Tally {
    fn fmt<W: fmt::Write>(&self, f: &mut fmt::Formatter<W>) -> fmt::Result {
        write!(
            f,
            "instructions accepted: {}, refused: {}; other calls, not made yet: {}; lines not understood: {}",
            self.accepted, self.refused, self.not_made, self.bad_lines
        )
    }
}
