// The listing program (document 01): a plant's file on standard input, the listing of its table or the refusal on standard output. A word of digits is the form of
// the table (request 2026-06), 1 where there is none. And list start PLANT START: the listing of a start file, box by box.
// Relies on pages listings and starts. 27,705 bytes of input decide every plant file: no more are read.
// Where memory runs out, the program says so on standard error; what it has listed by then are whole lines.

#![tactic(auto)]

mod boxes;
mod listings;
mod readers;
mod starts;

use desk::papers;
use desk::papers::{Fault, Word};
use std::alloc::AllocError;

const USAGE: &str = "list [FORM] < PLANT | list start PLANT START";

// The table of that form, for the plant's file on standard input.
fn list_table(rt: &HostRuntime, form: usize) -> Result<(), AllocError> {
    let mut plant = [0u8; papers::PLANT];
    let length = papers::read_full(&mut rt.stdin(), &mut plant);
    listings::list(rt, &plant[..length], form)
}

// The start file, for the plant's file.
fn list_files<'a>(rt: &HostRuntime, plant: &'a Word, start: &'a Word) -> Result<(), Fault<'a>> {
    let plant = papers::read_at_once(rt, plant, papers::PLANT)?;
    let start = papers::read_whole_at_once(rt, start, papers::START)?;
    starts::list(rt, plant.as_slice(), start.as_slice())?;
    Ok(())
}

fn list<'a>(rt: &HostRuntime, words: &'a [Word]) -> Result<(), Fault<'a>> {
    match words {
        [_] => list_table(rt, 1)?,
        [_, form] => list_table(rt, papers::number(form).ok_or(Fault::Usage(USAGE))?)?,
        [_, word, plant, start] if papers::says_start(word) => list_files(rt, plant, start)?,
        _ => return Err(Fault::Usage(USAGE)),
    }
    Ok(())
}

fn main(rt: HostRuntime) {
    let words = match papers::words(&rt) {
        Ok(words) => words,
        Err(error) => return Fault::Memory(error).tell(rt.stderr()),
    };
    if let Err(fault) = list(&rt, words.as_slice()) {
        fault.tell(rt.stderr());
    }
}
