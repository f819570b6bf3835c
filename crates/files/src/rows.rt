// The rows of a plant's modes, read into one flat array, number by number in file order; and numbers of an array written. Relies on fields and arrays.
// Leaves out which entry means what: row and column are told by the place alone.
ghost use Rattle.std.specs.Prelude.{◌≡◌, ◌+◌, ◌*◌, ◌≤◌, length, pos, neg_ℤ, ok_or};
ghost use Rattle.laws.specs.Lists;
ghost use Rattle.laws.specs.Lists.{tab};
ghost use Rattle.laws.specs.Writing.{Put};
ghost use Rattle.meaning.specs.Plants.{most_coefs};
ghost use Rattle.files.specs.Fields.{ranged_at, fault_at};
ghost use Rattle.files.specs.Signed.{signed_bytes};
ghost use Rattle.files.specs.Rows.{limit_at, next_column, RowsTold};

use crate::{arrays, fields, numbers};
use meaning::Refusal;

// The number of a row's column: one of n entries of A, or b behind them.
fn entry(s: &[u8], at: usize, n: usize, column: usize) -> Result<(i64, usize), Refusal>
    ensures { result ≡ ok_or (ranged_at s.now at (neg_ℤ (pos (limit_at n column))) (pos (limit_at n column))) (fault_at s.now at) }
{
    if column < n {
        fields::ranged(s, at, -20_000, 20_000)
    } else {
        fields::ranged(s, at, -10_000_000_000, 10_000_000_000)
    }
}

fn next_column(n: usize, column: usize) -> usize
    ensures { result ≡ next_column n column }
{
    if column < n { column + 1 } else { 0 }
}

// `count` rows into the array from `from` on, as far as there is room; the place behind them in the file.
pub fn read_rows(
    s: &[u8],
    at: usize,
    n: usize,
    count: usize,
    from: usize,
    coef: &mut [i64],
) -> Result<usize, Refusal>
    requires { (n ≤ 4) × (from + count * (n + 1) ≤ most_coefs) }
    ensures { RowsTold s.now at n count from coef.old coef.new result }
{
    let entries = count * (n + 1);
    let mut p = at;
    let mut column: usize = 0;
    for c in 0..entries {
        let (v, next) = entry(s, p, n, column)?;
        arrays::store(coef, from + c, v);
        p = next;
        column = next_column(n, column);
    }
    Ok(p)
}

// `count` numbers of an array, from `from` on, those that it lacks being 0, written from `at` on as far as there is room; the place behind them.
pub fn put_some(buf: &mut [u8], at: usize, values: &[i64], from: usize, count: usize) -> usize
    requires fact_1 { from + count ≤ most_coefs }
    requires fact_2 { at ≤ length buf.old + 1 }
    ensures { Put buf.old at (signed_bytes (tab (Lists.at values.now) count from)) result buf.new }
{
    let mut p = at;
    for i in from..from + count {
        p = numbers::put_signed(buf, p, arrays::number(values, i));
    }
    p
}
