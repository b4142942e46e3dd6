// Tests of the two id books, apart from the books so that these are proved once.
#![tactic(auto)]

#[cfg(test)]
mod tests;
