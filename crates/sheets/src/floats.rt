// Floats of a sheet, 8 bytes low first, read with what is asked of them, and written. Relies on files' buffers for bytes written.
// Leaves out what a float is for: that is its room's or its sheet's.
ghost use Rattle.std.specs.Prelude.{◌≡◌, ◌+◌, ◌≤◌, pos, length};
ghost use Rattle.std.specs.Float.{binary64};
ghost use Rattle.std.specs.Float.Ieee.{to_bits};
ghost use Rattle.laws.specs.Writing.{Put};
ghost use Rattle.meaning.specs.Files.{taken, float_at};
ghost use Rattle.sheets.specs.Floats.{ok_of, bits_taken, FloatTold, TwoTold, float_bytes};

use crate::refusals;
use files::buffers;
use meaning::Refusal;

// What is asked of a float besides being finite: nothing, not below 0 (minus zero is not), or above 0.
#[derive(Clone, Copy)]
pub enum Asked {
    Any,
    NotBelow,
    Above,
}

// The value of eight bytes that are there, low byte first.
fn low_first(s: &[u8], at: usize) -> u64
    requires { at + 8 ≤ length s.now }
    ensures { float_at s.now at ≡ taken (pos result) (at + 8) }
{
    let mut bytes = [0u8; 8];
    bytes.copy_from_slice(&s[at..at + 8]);
    u64::from_le_bytes(bytes)
}

// The value of the eight bytes at `at`, where they are there.
fn read_bits(s: &[u8], at: usize) -> Option<(u64, usize)>
    ensures { bits_taken result ≡ float_at s.now at }
{
    if 8 <= s.len() {
        if at <= s.len() - 8 {
            return Some((low_first(s, at), at + 8));
        }
    }
    None
}

fn passes(x: f64, asked: Asked) -> bool
    ensures { result ≡ ok_of asked x }
{
    match asked {
        Asked::Any => true,
        Asked::NotBelow => !(x < 0.0),
        Asked::Above => 0.0 < x,
    }
}

// The float at `at`: 1 where it ends early, 13 where it is not finite or not what is asked.
pub fn read_float(s: &[u8], at: usize, asked: Asked) -> Result<(f64, usize), Refusal>
    ensures { FloatTold (ok_of asked) s.now at result }
{
    let (b, next) = read_bits(s, at).ok_or(files::refusals::broken(at))?;
    // all exponent bits set: an infinity, or no number, which passes every `<`
    if b % 0x8000_0000_0000_0000 / 0x10_0000_0000_0000 == 2047 {
        return Err(refusals::bad_float(at));
    }
    let x = f64::from_bits(b);
    if passes(x, asked) {
        return Ok((x, next));
    }
    Err(refusals::bad_float(at))
}

// The float at `at`, of which something is asked, and the one behind it, of which nothing is.
pub fn read_two(s: &[u8], at: usize, asked: Asked) -> Result<(f64, f64, usize), Refusal>
    ensures { TwoTold (ok_of asked) s.now at result }
{
    let (x, mid) = read_float(s, at, asked)?;
    let (y, next) = read_float(s, mid, Asked::Any)?;
    Ok((x, y, next))
}

// A float's bits; of no number those that document 01's meaning gives it.
fn bits(x: f64) -> u64
    ensures { result ≡ to_bits binary64 x }
{
    if x.is_nan() {
        return 0x7ff8_0000_0000_0000;
    }
    f64::to_bits(x)
}

// A float's bytes at `at`, as far as there is room; the place behind them.
pub fn put_float(buf: &mut [u8], at: usize, x: f64) -> usize
    requires { at ≤ length buf.old + 1 }
    ensures { Put buf.old at (float_bytes x) result buf.new }
{
    buffers::put_bytes(buf, at, &bits(x).to_le_bytes())
}
