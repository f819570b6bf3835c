// The lengths that a split tells of its children (document 02, request 2026-01): behind its 0, of each child but the last how many bytes it has.
// Relies on crate files for numbers. Leaves out the children: walks and finds read them.
// No array keeps the lengths: whoever needs one again reads it again.
ghost use Rattle.std.specs.Prelude.{◌≡◌, ◌≤◌, length};
ghost use Rattle.meaning.specs.Trees.{tells};
ghost use Rattle.promises.specs.Tables.Walking.{lengths_count};
ghost use Rattle.tables.specs.Lengths.{behind_at, held_at, ends_at, total_at};

use crate::refusals;
use files::numbers;
use meaning::Refusal;

// How many lengths a split of so many children tells.
pub fn told(form: usize, children: usize) -> usize
    ensures { result ≡ lengths_count (tells form) children }
{
    if form == 2 {
        children.saturating_sub(1)
    } else {
        0
    }
}

// The place behind the k lengths at `at`.
pub fn behind(k: usize, table: &[u8], at: usize) -> Result<usize, Refusal>
    ensures { result ≡ behind_at k table.now at }
{
    let mut place = at;
    for _ in 0..k {
        let (_, next) = numbers::number(table, place).ok_or(files::refusals::broken(place))?;
        place = next;
    }
    Ok(place)
}

// A child that goes from `from` to `end` is held to the length at `at`, where one is told of it: the place of the next length, or 6 at this one.
// It is not known here that no child ends before it begins, and the sum of place and length may be beyond a usize: so the two places are compared first.
pub fn held(told: bool, table: &[u8], at: usize, from: usize, end: usize) -> Result<usize, Refusal>
    ensures { result ≡ held_at told table.now at from end }
{
    if told {
        let (size, next) = numbers::number(table, at).ok_or(files::refusals::broken(at))?;
        if end < from || end - from != size {
            return Err(refusals::bad_table(at));
        }
        return Ok(next);
    }
    Ok(at)
}

// Where the last of k children ends that stand one behind another from `from` on, by their lengths at `at`; 6 at the first whose child would end past the table.
pub fn ends(k: usize, table: &[u8], at: usize, from: usize) -> Result<usize, Refusal>
    requires { from ≤ length table.now }
    ensures { result ≡ ends_at k table.now at from }
{
    let mut cursor = at;
    let mut place = from;
    for _ in 0..k {
        let (size, next) = numbers::number(table, cursor).ok_or(files::refusals::broken(cursor))?;
        let room = table.len() - place;
        if room < size {
            return Err(refusals::bad_table(cursor));
        }
        place += size;
        cursor = next;
    }
    Ok(place)
}

// The k lengths at `at`, added up. No split has more than fifteen, and none is above 2^35, so that the sum never wraps.
pub fn total(k: usize, table: &[u8], at: usize) -> Option<(usize, usize)>
    requires { k ≤ 16 }
    ensures { result ≡ total_at k table.now at }
{
    let mut place = at;
    let mut sum: usize = 0;
    for _ in 0..k {
        let (size, next) = numbers::number(table, place)?;
        sum += size;
        place = next;
    }
    Some((sum, place))
}
