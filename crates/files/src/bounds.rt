// R, S and w of each dimension, which plants and sheets hold alike: read, written, and judged against one another. Relies on spans and numbers.
// Leaves out in which order the judgements are told (beginnings).
ghost use Rattle.std.specs.Prelude.{◌≡◌, ◌+◌, ◌≤◌, length, map};
ghost use Rattle.laws.specs.Lists.{tabs, first_false};
ghost use Rattle.laws.specs.Writing.{Put};
ghost use Rattle.meaning.specs.Boxes.{sides_of, lies};
ghost use Rattle.meaning.specs.Plants.{edges_of, band_of, wide};
ghost use Rattle.files.specs.Signed.{signed_bytes};
ghost use Rattle.files.specs.Bounds.{EdgesTold, BandsTold, BandSizes};

use crate::{numbers, spans};
use meaning::Refusal;

// The two ends of each side of a box, or of each band: those of the first n dimensions count, behind them stand zeros.
#[derive(Clone, Copy, Default)]
pub struct Sides {
    pub lo: [i64; 4],
    pub hi: [i64; 4],
}

impl Sides {
    // The first dimension whose side does not lie in that of the other box; n where all do.
    pub(crate) fn first_out(self, other: Sides, n: usize) -> usize
        requires { n ≤ 4 }
        ensures { result ≡ first_false (lies (sides_of n self.lo self.hi) (sides_of n other.lo other.hi)) }
    {
        for i in 0..n {
            if self.lo[i] < other.lo[i] || other.hi[i] < self.hi[i] {
                return i;
            }
        }
        n
    }

    // The first dimension whose band is narrower than q - 1; n where none is.
    pub(crate) fn first_narrow(self, n: usize, q: usize) -> usize
        requires fact_1 { n ≤ 4 }
        requires fact_2 { q ≤ 10000 }
        requires fact_3 { BandSizes n self.lo self.hi }
        ensures { result ≡ first_false (map (wide q) (sides_of n self.lo self.hi)) }
    {
        let need = q as i64 - 1;
        for i in 0..n {
            if self.hi[i] - self.lo[i] < need {
                return i;
            }
        }
        n
    }
}

// R and S.
pub(crate) fn read_edges(s: &[u8], at: usize, n: usize) -> Result<(Sides, Sides, usize), Refusal>
    requires { n ≤ 4 }
    ensures { EdgesTold s.now at n result }
{
    let mut root = Sides::default();
    let mut safe = Sides::default();
    let mut p = at;
    for i in 0..n {
        let (root_lo, root_hi, mid) = spans::read_span(s, p, -1_000_000, 1_000_000)?;
        let (safe_lo, safe_hi, next) = spans::read_span(s, mid, -1_000_000, 1_000_000)?;
        root.lo[i] = root_lo;
        root.hi[i] = root_hi;
        safe.lo[i] = safe_lo;
        safe.hi[i] = safe_hi;
        p = next;
    }
    Ok((root, safe, p))
}

// The bands.
pub(crate) fn read_bands(s: &[u8], at: usize, n: usize) -> Result<(Sides, usize), Refusal>
    requires { n ≤ 4 }
    ensures { BandsTold s.now at n result }
{
    let mut bands = Sides::default();
    let mut p = at;
    for i in 0..n {
        let (lo, hi, next) = spans::read_span(s, p, -1_000_000_000, 1_000_000_000)?;
        bands.lo[i] = lo;
        bands.hi[i] = hi;
        p = next;
    }
    Ok((bands, p))
}

// R and S of n dimensions from `at` on, as far as there is room; the place behind them.
pub(crate) fn put_edges(buf: &mut [u8], at: usize, n: usize, root: Sides, safe: Sides) -> usize
    requires fact_1 { n ≤ 4 }
    requires fact_2 { at ≤ length buf.old + 1 }
    ensures { Put buf.old at (signed_bytes (tabs (edges_of root.lo root.hi safe.lo safe.hi) n 0)) result buf.new }
{
    let mut p = at;
    for i in 0..n {
        p = numbers::put_signed(buf, p, root.lo[i]);
        p = numbers::put_signed(buf, p, root.hi[i]);
        p = numbers::put_signed(buf, p, safe.lo[i]);
        p = numbers::put_signed(buf, p, safe.hi[i]);
    }
    p
}

// The bands of n dimensions, likewise.
pub(crate) fn put_bands(buf: &mut [u8], at: usize, n: usize, bands: Sides) -> usize
    requires fact_1 { n ≤ 4 }
    requires fact_2 { at ≤ length buf.old + 1 }
    ensures { Put buf.old at (signed_bytes (tabs (band_of bands.lo bands.hi) n 0)) result buf.new }
{
    let mut p = at;
    for i in 0..n {
        p = numbers::put_signed(buf, p, bands.lo[i]);
        p = numbers::put_signed(buf, p, bands.hi[i]);
    }
    p
}
