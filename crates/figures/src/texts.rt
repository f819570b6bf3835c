// Text in a lent buffer: texts and decimal numbers, put one behind another. Relies on crate files for a byte, on io for a number's digits. Leaves
// out who writes the buffer out. A place stops at one past the buffer's end where there is not room for all, as in crate files.
ghost use Rattle.laws.specs.Writing.{Put};
ghost use Rattle.figures.specs.Texts.{decimal, signed_decimal};

use files::numbers;

// All of a text at `at`, as far as there is room; the place behind it.
pub fn put(buf: &mut [u8], at: usize, text: &[u8]) -> usize
    ensures { Put buf.old at text.now result buf.new }
{
    let mut place = at.min(buf.len() + 1);
    for letter in text {
        place = numbers::put_byte(buf, place, *letter);
    }
    place
}

// A number's decimal digits.
pub fn put_decimal(buf: &mut [u8], at: usize, v: usize) -> usize
    ensures { Put buf.old at (decimal v) result buf.new }
{
    let mut digits = [0u8; 20];
    let k = io::decimal(v as u64, &mut digits);
    put(buf, at, &digits[..k])
}

// The same of a signed number.
pub fn put_signed(buf: &mut [u8], at: usize, v: i64) -> usize
    ensures { Put buf.old at (signed_decimal v) result buf.new }
{
    let size = v.unsigned_abs() as usize;
    if 0 <= v {
        return put_decimal(buf, at, size);
    }
    let place = numbers::put_byte(buf, at, b'-');
    put_decimal(buf, place, size)
}
