// Limits: where the sums of a row have to lie for an image to lie in S or in the goal, with which the search tells both without dividing, mode by mode,
// for each has its own band; and of each mode's last row a mark where it is that of the mode before, as in every plant made of a sheet, with which the
// search makes what it needs of that row once for all of them, and its offset. Both stand in slices, for any number of modes.
// Relies on frames, on images for a pair of numbers and for where a band stands, and on levels for putting a side into a slice. Leaves out the sums
// themselves (levels) and who tests them (steps).
ghost use Rattle.std.specs.Prelude.{◌≡◌, true, ℕ, ◌+◌, ◌-◌, ◌*◌, ◌≤◌, ◌<◌, length, pos};
ghost use Rattle.meaning.specs.Boxes.{side, side_at};
ghost use Rattle.meaning.specs.Plants.{edge_limit, band_limit};
ghost use Rattle.tables.specs.Boxes.{box_of, Small};
ghost use Rattle.promises.specs.Files.Sound.{Bounded};
ghost use Rattle.tables.specs.Frames.{PlantSound};
ghost use Rattle.tables.specs.Images.{entries_of, RowSound};
ghost use Rattle.tables.specs.Levels.{wide, side_in, Beside};
ghost use Rattle.tables.specs.Limits.{limit_side, limits_size, marks_size, limit_at, Laid, last_entries, last_offset, RowsSound, BandsSound, MarksLent, LimitsLaid};

use crate::frames::Frame;
use crate::images::Span;
use crate::{images, levels};
use files::bounds::Sides;

// The limits of a mode: those of S, then those of the goal; a span of sixteen is found without a product. Its mark and its offset stand side by side in a
// slice of their own: the search reads these two and one side for most modes.
pub const SPAN: usize = 16;

pub const GOAL: usize = 8;

pub const PAIR: usize = 2;

// A plant of few modes needs few numbers, one of most the others: zeros for 256 modes would cost a small plant more than its search.
pub const FEW_MODES: usize = 16;

pub const FEW_LIMITS: usize = 256;

pub const FEW_MARKS: usize = 32;

pub const MOST_LIMITS: usize = 4_096;

pub const MOST_MARKS: usize = 512;

// The limits of side l..h with the band wl..wh: q·(l - 1) + 1 - wl, and q·(h + 1) - 1 - wh.
fn around(q: usize, wl: i64, wh: i64, l: i64, h: i64) -> Span
    requires { (q ≤ 10_000) × Bounded band_limit (side wl wh) × Bounded edge_limit (side l h) }
    ensures { side result.lo result.hi ≡ limit_side q (side wl wh) (side l h) }
{
    let d = q as i64;
    let from = d * (l - 1) + 1 - wl;
    let to = d * (h + 1) - 1 - wh;
    Span { lo: from, hi: to }
}

// The limits of box b under mode u, at `base`.
fn lay_box(n: usize, q: usize, bands: &[i64], u: usize, b: Sides, limits: &mut [i64], base: usize)
    requires step { (n ≤ 4) × (q ≤ 10_000) × BandsSound n bands.now u × Small edge_limit (box_of n b) }
    requires place { base + wide ≤ length limits.old }
    ensures sides { (i : ℕ) → i < n → side_in limits.new base i ≡ limit_at n q bands.now u b.lo b.hi i }
    ensures beside { Beside base limits.old limits.new }
{
    for i in 0..n {
        let place = images::band(n, u, i);
        let s = around(q, bands[place], bands[place + 1], b.lo[i], b.hi[i]);
        levels::put_side(limits, base, i, s.lo, s.hi);
    }
}

// Those of S and of the goal, mode by mode.
fn lay_boxes(f: Frame, bands: &[i64], limits: &mut [i64])
    requires sizes { (f.n ≤ 4) × (f.q ≤ 10_000) × (limits_size * f.modes ≤ length limits.old) }
    requires boxes { Small edge_limit (box_of f.n f.goal) × Small edge_limit (box_of f.n f.safe) × ((u : ℕ) → u < f.modes → BandsSound f.n bands.now u) }
    ensures laid { Laid f.n f.modes f.q (side_at f.goal.lo f.goal.hi) (side_at f.safe.lo f.safe.hi) bands.now limits.new }
    ensures size { length limits.new ≡ length limits.old }
{
    for u in 0..f.modes {
        lay_box(f.n, f.q, bands, u, f.safe, limits, SPAN * u);
        lay_box(f.n, f.q, bands, u, f.goal, limits, SPAN * u + GOAL);
    }
}

// Whether two rows have the same entries.
fn same_row(n: usize, coef: &[i64], a: usize, b: usize) -> bool
    requires { RowSound n coef.now a × RowSound n coef.now b }
    ensures { result ≡ true → entries_of n coef.now a ≡ entries_of n coef.now b }
{
    coef[a..a + n] == coef[b..b + n]
}

// The mark of mode u: 1 where its last row has the entries of that of the mode before it, else 0.
fn mark(n: usize, coef: &[i64], u: usize) -> i64
    requires { (1 ≤ n) × RowsSound n coef.now u × (1 ≤ u → RowsSound n coef.now (u - 1)) }
    ensures { (result ≡ pos 0 → ⊥) → (1 ≤ u) × (last_entries n coef.now (u - 1) ≡ last_entries n coef.now u) }
{
    if u == 0 {
        return 0;
    }
    let before = images::row(n, u - 1, n - 1);
    let start = images::row(n, u, n - 1);
    if same_row(n, coef, before, start) {
        return 1;
    }
    0
}

// The offset of the last row of mode u.
fn last_offset(n: usize, coef: &[i64], u: usize) -> i64
    requires { (1 ≤ n) × RowsSound n coef.now u }
    ensures { result ≡ last_offset n coef.now u }
{
    let start = images::row(n, u, n - 1);
    coef[start + n]
}

// What is lent of each mode's last row: its mark, then its offset.
fn lay_marks(n: usize, modes: usize, coef: &[i64], marks: &mut [i64])
    requires rows { (1 ≤ n) × ((u : ℕ) → u < modes → RowsSound n coef.now u) }
    requires room { marks_size * modes ≤ length marks.old }
    ensures marks_lent { MarksLent n modes coef.now marks.new }
    ensures size { length marks.new ≡ length marks.old }
{
    for u in 0..modes {
        marks[PAIR * u] = mark(n, coef, u);
        marks[PAIR * u + 1] = last_offset(n, coef, u);
    }
}

// The boxes, and what is lent of each mode's last row.
pub fn lay(f: Frame, bands: &[i64], coef: &[i64], limits: &mut [i64], marks: &mut [i64])
    requires plant { PlantSound f bands.now coef.now }
    requires room { (limits_size * f.modes ≤ length limits.old) × (marks_size * f.modes ≤ length marks.old) }
    ensures laid { LimitsLaid f bands.now coef.now limits.new marks.new }
    ensures size { (length limits.new ≡ length limits.old) × (length marks.new ≡ length marks.old) }
{
    lay_boxes(f, bands, limits);
    lay_marks(f.n, f.modes, coef, marks);
}
