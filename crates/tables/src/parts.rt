// Tables inside a start file (document 02, request 2026-03): each stands behind its byte length, one behind another.
// Relies on crate files for numbers. Leaves out what a table says: of those that are passed only the lengths are read.
ghost use Rattle.std.specs.Prelude.{◌≡◌};
ghost use Rattle.tables.specs.Parts.{part_at, part_behind};

use files::numbers;
use meaning::Refusal;

// The table whose length stands at `at`. The sum of place and length may be beyond a usize, so the length is held against what stands behind the place.
pub fn part_at(s: &[u8], at: usize) -> Result<(usize, usize), Refusal>
    ensures { result ≡ part_at s.now at }
{
    let (size, first) = numbers::number(s, at).ok_or(files::refusals::broken(at))?;
    let left = s.len() - first;
    if left < size {
        return Err(files::refusals::unfit(at));
    }
    Ok((first, size))
}

// The table that i others stand before, the first of their lengths at `at`.
pub fn part_behind(i: usize, s: &[u8], at: usize) -> Result<(usize, usize), Refusal>
    ensures { result ≡ part_behind i s.now at }
{
    let mut place = at;
    for _ in 0..i {
        let (first, size) = part_at(s, place)?;
        place = first + size;
    }
    part_at(s, place)
}
