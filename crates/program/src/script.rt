// The lines of a script, one call to a line.
use crate::numbers::{BadWord, hex_word};
use crate::report::{Accepted, Refused};
use crate::tally::Tally;
use std::str::from_utf8;
use thiserror::Error;
use words::parse_instruction;

// Why a line is not made.
#[derive(Debug, Drop, Error)]
pub enum BadLine<'a> {
    #[error("the line has no end, so it may be cut off; it is not made")]
    NoEnd,
    #[error("only printable ASCII characters and blanks can stand in a line")]
    NotPlain,
    #[error("{0} is no call")]
    NoCall(&'a str),
    #[error("{0} is no hexadecimal word")]
    NotHexadecimal(&'a str),
    #[error("{0} has more than 32 bits")]
    TooLarge(&'a str),
}

// The words after `read`.
fn read_words<'a>(
    rt: &HostRuntime,
    text: &'a str,
) -> anyhow::Result<Result<Vec<u32>, BadLine<'a>>> {
    let mut words = Vec::new(rt.alloc());
    for token in text.split_ascii_whitespace().skip(1) {
        match hex_word(token.as_bytes()) {
            Ok(word) => words.push(word)?,
            Err(BadWord::NotHexadecimal) => return Ok(Err(BadLine::NotHexadecimal(token))),
            Err(BadWord::TooLarge) => return Ok(Err(BadLine::TooLarge(token))),
        }
    }
    Ok(Ok(words))
}

// Says how many words were not read.
fn past_the_count(rt: &HostRuntime, words: &[u32]) -> anyhow::Result<()> {
    if let [first, ..] = words {
        let count = (*first >> 16) as usize;
        if words.len() > count {
            let past = words.len() - count;
            println!(rt; "       words past the count, not read: {past}")?;
        }
    }
    Ok(())
}

fn read(rt: &HostRuntime, words: &[u32], tally: &mut Tally) -> anyhow::Result<()> {
    match parse_instruction(words) {
        Ok(instruction) => {
            tally.accepted = tally.accepted.saturating_add(1);
            rt.println(Accepted(instruction))?;
            past_the_count(rt, words)?;
        }
        Err(error) => {
            tally.refused = tally.refused.saturating_add(1);
            rt.println(Refused { error, words })?;
        }
    }
    Ok(())
}

fn call<'a>(
    rt: &HostRuntime,
    text: &'a str,
    tally: &mut Tally,
) -> anyhow::Result<Result<(), BadLine<'a>>> {
    match text.split_ascii_whitespace().next() {
        None => {}
        Some("read") => match read_words(rt, text)? {
            Ok(words) => {
                println!(rt; "> {text}")?;
                read(rt, words.as_slice(), tally)?;
            }
            Err(bad) => return Ok(Err(bad)),
        },
        Some("case") => println!(rt; "{text}")?,
        Some(
            "type"
            | "var"
            | "arg"
            | "const"
            | "value"
            | "element"
            | "start"
            | "finish"
            | "limits"
            | "input"
            | "run"
            | "hand",
        ) => {
            tally.not_made = tally.not_made.saturating_add(1);
            println!(rt; "> {text} (not made yet)")?;
        }
        Some(name) => return Ok(Err(BadLine::NoCall(name))),
    }
    Ok(Ok(()))
}

// The text of a line as it came in: printable ASCII characters and blanks. One without an end may be cut off.
fn plain_text(line: &[u8]) -> Result<&str, BadLine<'_>> {
    let Some(text) = line.strip_suffix(b"\n") else {
        return Err(BadLine::NoEnd);
    };
    let plain = text
        .iter()
        .all(|byte| matches!(*byte, b'\t' | b'\r' | b' '..=b'~'));
    match from_utf8(text) {
        Ok(text) if plain => Ok(text.trim_ascii()),
        _ => Err(BadLine::NotPlain),
    }
}

// One line as it came in.
pub fn make_line(
    rt: &HostRuntime,
    number: u64,
    line: &[u8],
    tally: &mut Tally,
) -> anyhow::Result<()> {
    let made = match plain_text(line) {
        Ok(text) => call(rt, text, tally)?,
        Err(bad) => Err(bad),
    };
    if let Err(bad) = made {
        tally.bad_lines = tally.bad_lines.saturating_add(1);
        println!(rt; "line {number}: {bad}")?;
    }
    Ok(())
}
