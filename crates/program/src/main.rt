// Takes a script on standard input and says of each instruction in it what its words are.
#![tactic(auto)]

mod names;
mod numbers;
mod report;
mod script;
mod tally;

use script::make_line;
use std::io::{BufRead, BufReader};
use tally::Tally;

fn run(rt: &HostRuntime) -> anyhow::Result<()> {
    let mut input = BufReader::new(rt.alloc(), rt.stdin())?;
    let mut tally = Tally::default();
    for number in 1..u64::MAX {
        let mut line = Vec::new(rt.alloc());
        if input.read_until(b'\n', &mut line)? == 0 {
            break;
        }
        make_line(rt, number, line.as_slice(), &mut tally)?;
    }
    println!(rt; "{tally}")?;
    Ok(())
}

fn main(rt: HostRuntime) -> anyhow::Result<()> {
    run(&rt)
}
