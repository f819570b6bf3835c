// What a program tells: a refusal, words. Relies on crate figures for numbers, and on std to write. Leaves out what was refused, and why. A program that
// cannot write goes on, here and in what it says: there is nobody left to tell.
use figures::texts;
use meaning::Refusal;

// Room for a refusal's numbers: each has twenty digits at most.
const LINE: usize = 80;

// "refused", number and place, at the start of a line; the place behind them.
fn put_refused(line: &mut [u8], e: Refusal) -> usize {
    let word = texts::put(line, 0, b"refused ");
    let number = texts::put_decimal(line, word, e.number as usize);
    let blank = texts::put(line, number, b" ");
    texts::put_decimal(line, blank, e.place)
}

// The listing's line: number and place.
pub fn tell_place(out: &impl Print, e: Refusal) {
    let mut line = [0u8; LINE];
    let place = put_refused(&mut line, e);
    let end = texts::put(&mut line, place, b"\n");
    say(out, &line[..end.min(LINE)]);
}

// The other programs' line: number, place, step, and the words of the row.
pub fn tell(out: &impl Print, e: Refusal) {
    let mut line = [0u8; LINE];
    let place = put_refused(&mut line, e);
    let blank = texts::put(&mut line, place, b" ");
    let step = texts::put_decimal(&mut line, blank, e.step);
    let end = texts::put(&mut line, step, b": ");
    say(out, &line[..end.min(LINE)]);
    say(out, row(e.number).as_bytes());
    say(out, b"\n");
}

// The words of document 01's row with this number.
fn row(number: u8) -> &'static str {
    match number {
        1 => "a number or float ends early, is over 5 bytes, or not shortest",
        2 => "form is not known",
        3 => "plant or sheet number out of range, lo > hi, emitter kind over 2, or bytes left over",
        4 => "R not in S",
        5 => "band too narrow",
        6 => {
            "table: n differs, node over K, mode not below N, a split too deep or not possible, bytes left over"
        }
        7 => "an image leaves S",
        8 => "last image not in R",
        9 => "no table",
        10 => "buffer too short",
        11 => "reading outside R (idle) or S (running)",
        12 => "state cannot be",
        13 => "sheet float not finite, time ≤ 0, or loss, exchange or p below 0",
        14 => "sheet result not finite or outside the plant's range",
        15 => "a box that does not hold the one before or is not in S",
        _ => "no such number",
    }
}

// Words to standard output or to standard error.
pub fn say(out: &impl Print, words: &[u8]) {
    let _ = out.write_all(words);
}
