// One number of a file, judged: what the fields of a form ask of it. Relies on numbers. Leaves out which field comes next.
ghost use Rattle.std.specs.Prelude.{◌≡◌, ok_or};
ghost use Rattle.files.specs.Fields.{counted_at, ranged_at, fault_at};

use crate::{numbers, refusals};
use meaning::Refusal;

// The number at `at`, if it lies in least..most; else whether it is broken itself, or out of range.
pub fn counted(s: &[u8], at: usize, least: usize, most: usize) -> Result<(usize, usize), Refusal>
    ensures { result ≡ ok_or (counted_at s.now at least most) (fault_at s.now at) }
{
    let (v, next) = numbers::number(s, at).ok_or(refusals::broken(at))?;
    if v < least || most < v {
        return Err(refusals::unfit(at));
    }
    Ok((v, next))
}

// The same as a signed number.
pub fn ranged(s: &[u8], at: usize, least: i64, most: i64) -> Result<(i64, usize), Refusal>
    ensures { result ≡ ok_or (ranged_at s.now at least most) (fault_at s.now at) }
{
    let (v, next) = numbers::signed(s, at).ok_or(refusals::broken(at))?;
    if v < least || most < v {
        return Err(refusals::unfit(at));
    }
    Ok((v, next))
}
