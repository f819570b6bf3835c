// Images (document 01, "Image"): what a mode makes of a box. Bands, coefficients and box are lent, so that no call copies them.
// Relies on boxes and division, and on crates/meaning for what an image is. Leaves out whether the image lies in S or R (tiles).
// Every sum fits 64 bits: 4 entries of A within 20,000 times edges within 1,000,000, an offset and a band.
ghost use Rattle.std.specs.Prelude.{◌≡◌, ◌+◌, ◌*◌, ◌^◌, ◌≤◌, ◌<◌, length, nat_abs, ◌+ℤ◌};
ghost use Rattle.laws.specs.Lists.{at};
ghost use Rattle.meaning.specs.Boxes.{side, side_at, sides_of};
ghost use Rattle.meaning.specs.Images.{least_of, greatest_of, image_side, image};
ghost use Rattle.meaning.specs.Plants.{edge_limit, band_limit, entry_limit, row_start, band_start};
ghost use Rattle.tables.specs.Boxes.{box_of, Small};
ghost use Rattle.promises.specs.Files.Sound.{Bounded};
ghost use Rattle.tables.specs.Images.{negative_part, row_limit, entries_of, row_at, step_from, RowSound, StepSound, Extremes};

use crate::division;
use files::bounds::Sides;

// A least and a greatest number.
#[derive(Clone, Copy)]
pub struct Span {
    pub lo: i64,
    pub hi: i64,
}

// The negative part of a number: the number where it is below 0, else 0. What is left of the number is its positive part.
fn negative_part(a: i64) -> i64
    ensures { result ≡ negative_part a }
{
    a.min(0)
}

// One more term of a row: s and entry j, taken over side j. A larger reading makes the product with a positive part larger and that with a negative
// part smaller, so for the least the positive part takes the low edge and the negative part the high one, and for the greatest the other way round.
fn more(coef: &[i64], start: usize, j: usize, lo: &[i64; 4], hi: &[i64; 4], s: Span) -> Span
    requires place { (j < 4) × (start + j < length coef.now) }
    requires entry { (nat_abs (at coef.now (start + j)) ≤ entry_limit) × Bounded edge_limit (side_at lo.now hi.now j) }
    requires sums { (nat_abs s.lo ≤ row_limit) × (nat_abs s.hi ≤ row_limit) }
    ensures least { result.lo ≡ s.lo +ℤ least_of (at coef.now (start + j)) (side_at lo.now hi.now j) }
    ensures greatest { result.hi ≡ s.hi +ℤ greatest_of (at coef.now (start + j)) (side_at lo.now hi.now j) }
{
    let a = coef[start + j];
    let l = lo[j];
    let h = hi[j];
    let negative = negative_part(a);
    let positive = a - negative;
    let least = s.lo + positive * l + negative * h;
    let greatest = s.hi + positive * h + negative * l;
    Span {
        lo: least,
        hi: greatest,
    }
}

// The least and the greatest of A·x over a box, A being the row that starts at `start`. Written out room by room: a loop of at most four rounds
// costs more than its terms.
pub fn extremes(n: usize, coef: &[i64], start: usize, lo: &[i64; 4], hi: &[i64; 4]) -> Span
    requires { RowSound n coef.now start × Small edge_limit (sides_of n lo.now hi.now) }
    ensures { Extremes (entries_of n coef.now start) (sides_of n lo.now hi.now) result.lo result.hi }
{
    let none = Span { lo: 0, hi: 0 };
    let one = more(coef, start, 0, lo, hi, none);
    if n == 1 {
        return one;
    }
    let two = more(coef, start, 1, lo, hi, one);
    if n == 2 {
        return two;
    }
    let three = more(coef, start, 2, lo, hi, two);
    if n == 3 {
        return three;
    }
    more(coef, start, 3, lo, hi, three)
}

// Where row i of mode u starts: a row whose end is a usize.
pub fn row(n: usize, u: usize, i: usize) -> usize
    requires { row_start n u i + n + 1 < 2 ^ 64 }
    ensures { result ≡ row_start n u i }
{
    (u * n + i) * (n + 1)
}

// Where the band of mode u in dimension i stands: its low end, and behind it its high end.
pub fn band(n: usize, u: usize, i: usize) -> usize
    requires { band_start n u i < 2 ^ 64 }
    ensures { result ≡ band_start n u i }
{
    (u * n + i) * 2
}

// One side of an image, by the row that starts at `start` and its band wl..wh.
fn image_side(
    n: usize,
    q: usize,
    coef: &[i64],
    start: usize,
    wl: i64,
    wh: i64,
    lo: &[i64; 4],
    hi: &[i64; 4],
) -> Span
    requires step { (1 ≤ q) × (q ≤ 10_000) × (nat_abs wl ≤ band_limit) × (nat_abs wh ≤ band_limit) }
    requires row { RowSound n coef.now start × Small edge_limit (sides_of n lo.now hi.now) }
    ensures { side result.lo result.hi ≡ image_side q (sides_of n lo.now hi.now) (row_at n coef.now start wl wh) }
{
    let sums = extremes(n, coef, start, lo, hi);
    let offset = coef[start + n];
    let low = division::ceiling(sums.lo + offset + wl, q);
    let high = division::floor(sums.hi + offset + wh, q);
    Span { lo: low, hi: high }
}

// The image of a box under mode u: q, the bands and the coefficients are the plant's.
pub fn image(
    n: usize,
    q: usize,
    bands: &[i64],
    coef: &[i64],
    u: usize,
    lo: &[i64; 4],
    hi: &[i64; 4],
) -> Sides
    requires { StepSound n q bands.now coef.now u × Small edge_limit (sides_of n lo.now hi.now) }
    ensures { box_of n result ≡ image (step_from n q bands.now coef.now u) (sides_of n lo.now hi.now) }
{
    let mut least = [0i64; 4];
    let mut greatest = [0i64; 4];
    for i in 0..n {
        let start = (u * n + i) * (n + 1);
        let place = band(n, u, i);
        let wl = bands[place];
        let wh = bands[place + 1];
        let s = image_side(n, q, coef, start, wl, wh, lo, hi);
        least[i] = s.lo;
        greatest[i] = s.hi;
    }
    Sides {
        lo: least,
        hi: greatest,
    }
}

// The least and the greatest of a·x over l..h by the sign of a, for the search (levels): two products where the parts need four, which its inner loop
// would feel. That both say the same is `parts-least` (proofs/images/Laws).
pub fn term(a: i64, l: i64, h: i64) -> Span
    requires { (nat_abs a ≤ entry_limit) × (nat_abs l ≤ edge_limit) × (nat_abs h ≤ edge_limit) }
    ensures { (result.lo ≡ least_of a (side l h)) × (result.hi ≡ greatest_of a (side l h)) }
{
    let at_low = a * l;
    let at_high = a * h;
    if 0 <= a {
        Span {
            lo: at_low,
            hi: at_high,
        }
    } else {
        Span {
            lo: at_high,
            hi: at_low,
        }
    }
}
