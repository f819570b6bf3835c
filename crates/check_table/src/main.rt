// The checker as a program: check_table PLANT TABLE says "accepted", or the refusal of a table's file for a plant's file; check_table start PLANT START says it of
// a start file. A word tells them apart, since both kinds of file may begin with 01.
// Relies on crate tables for the verdict and on crate desk for files. The kit has a library of the name check, so the program has another.
// Where memory runs out, the program says so on standard error; it has given no verdict then.

#![tactic(auto)]

use desk::papers::{Fault, Word};
use desk::{papers, tellings};
use meaning::Refusal;
use std::rt::Files;
use tables::{checks, start_checks};

const USAGE: &str = "check_table PLANT TABLE | check_table start PLANT START";

// Of the files that the words name.
fn verdict<'a>(
    rt: &(impl Files + AllocGlobal),
    words: &'a [Word],
) -> Result<Result<(), Refusal>, Fault<'a>> {
    match words {
        [_, plant, table] => {
            let plant = papers::read_at_once(rt, plant, papers::PLANT)?;
            let table = papers::read_at_once(rt, table, papers::TABLE)?;
            Ok(checks::check(plant.as_slice(), table.as_slice()))
        }
        [_, word, plant, start] if papers::says_start(word) => {
            let plant = papers::read_at_once(rt, plant, papers::PLANT)?;
            let start = papers::read_whole_at_once(rt, start, papers::START)?;
            Ok(start_checks::start_check(plant.as_slice(), start.as_slice()))
        }
        _ => Err(Fault::Usage(USAGE)),
    }
}

fn main(rt: HostRuntime) {
    let words = match papers::words(&rt) {
        Ok(words) => words,
        Err(error) => return Fault::Memory(error).tell(rt.stderr()),
    };
    match verdict(&rt, words.as_slice()) {
        Ok(Ok(())) => tellings::say(&rt, b"accepted\n"),
        Ok(Err(e)) => tellings::tell(&rt, e),
        Err(fault) => fault.tell(rt.stderr()),
    }
}
