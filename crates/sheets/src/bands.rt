// Each dimension's band, widened at each end by what rounding the coefficients can add (document 01, "The sheet"), one for all modes.
// Relies on refusals. Leaves out the coefficients (made).
ghost use Rattle.std.specs.Prelude.{◌≡◌, ◌≤◌, ◌<◌};
ghost use Rattle.meaning.specs.Plants.{band_limit};
ghost use Rattle.meaning.specs.Sheets as S;
ghost use Rattle.meaning.specs.Sheets.{limited_to, largest_edge};
ghost use Rattle.sheets.specs.Sizes.{Sized};
ghost use Rattle.sheets.specs.Bands.{low_end, high_end, bands_of};

use crate::refusals;
use meaning::{Refusal, Sheet};

// M, the largest absolute edge of S.
fn largest_edge(h: Sheet) -> usize
    requires { Sized h }
    ensures { result ≡ largest_edge h h.n }
{
    let mut most: usize = 0;
    for i in 0..h.n {
        let edge = h.slo[i].unsigned_abs().max(h.shi[i].unsigned_abs());
        most = most.max(edge as usize);
    }
    most
}

// The ceiling of (n·M + 1)/2: each of n entries of A is up to a half off, times a reading of up to M, and b up to a half.
fn widening(h: Sheet) -> usize
    requires { Sized h }
    ensures { result ≡ S.widening h }
{
    (h.n * largest_edge(h) + 1).div_ceil(2)
}

// An end of a band, where the plant can hold it.
fn end(v: i64) -> Option<i64>
    ensures { result ≡ limited_to band_limit v }
{
    (v.unsigned_abs() <= 1_000_000_000).then_some(v)
}

fn low_end(h: Sheet, i: usize) -> Option<i64>
    requires fact_1 { Sized h }
    requires fact_2 { i < h.n }
    ensures { result ≡ low_end h i }
{
    let w = widening(h) as i64;
    end(h.wlo[i] - w)
}

fn high_end(h: Sheet, i: usize) -> Option<i64>
    requires fact_1 { Sized h }
    requires fact_2 { i < h.n }
    ensures { result ≡ high_end h i }
{
    let w = widening(h) as i64;
    end(h.whi[i] + w)
}

// The ends of the bands of four rooms.
pub const ENDS: usize = 8;

// The widened bands in plant order, w lo and w hi of each dimension, zeros behind them; or 14 at the first number that is out, `place` being that of the
// first of them. A plant of form 1 is written with one band for all modes.
pub fn widened(h: Sheet, place: usize) -> Result<[i64; ENDS], Refusal>
    requires fact_1 { Sized h }
    requires fact_2 { place ≤ 100 }
    ensures { result ≡ bands_of h place }
{
    let mut ends = [0i64; ENDS];
    for i in 0..h.n {
        let lo = low_end(h, i).ok_or(refusals::bad_result(place + 2 * i))?;
        let hi = high_end(h, i).ok_or(refusals::bad_result(place + 2 * i + 1))?;
        ends[2 * i] = lo;
        ends[2 * i + 1] = hi;
    }
    Ok(ends)
}
