// Boxes (document 01, "Split"; request 2026-06): the split of a side, the children of a box by a table's form, a reading in a box and in a child of it, a box in a box.
// Relies on crate files for the ends of a box's sides, on crates/meaning for what boxes are. Leaves out who splits which box, and to what depth.
// Each loop goes through the first n sides; what an array holds behind them is never read.
ghost use Rattle.std.specs.Prelude.{◌≡◌, true, ◌&&◌, [], ◌≤◌, ◌<◌, ◌*◌, length, get_or, nat_abs};
ghost use Rattle.std.specs.Int.Signed.{le_z};
ghost use Rattle.laws.specs.Lists.{first_false};
ghost use Rattle.meaning.specs.Boxes.{side, middle, halves, fits, within, children, longest_halved};
ghost use Rattle.meaning.specs.Plants.{edge_limit};
ghost use Rattle.meaning.specs.Tables.{reading_of, children_by};
ghost use Rattle.tables.specs.Boxes.{box_of, Small, piece_of, rest_of, part_of, bit_of, longest_at};
ghost use Rattle.tables.specs.Finds.{holds_in, HalfOf};

use files::bounds::Sides;

// One side of a child, and the bits of the child's number that are left for the other sides.
#[derive(Clone, Copy)]
struct Piece {
    lo: i64,
    hi: i64,
    bits: usize,
}

// One side of the child that holds a reading, what it adds to the child's number, and how many children the sides up to it make.
#[derive(Clone, Copy)]
struct Part {
    lo: i64,
    hi: i64,
    add: usize,
    count: usize,
}

// The child that holds a reading, of a box that holds it, where all long sides are halved at once: its box, its number, and how many children there are; 1 where no
// side is long, and there are none.
#[derive(Clone, Copy)]
pub struct Holder {
    pub kid: Sides,
    pub number: usize,
    pub count: usize,
}

// The floor of (l + h) / 2: a shift copies the sign and so rounds down, below zero too.
fn middle(l: i64, h: i64) -> i64
    requires { (nat_abs l ≤ edge_limit) × (nat_abs h ≤ edge_limit) }
    ensures { result ≡ middle (side l h) }
{
    (l + h) >> 1
}

// The half of the side l..h that the lowest bit of x names; a one-count side stays, and takes no bit.
fn half(l: i64, h: i64, x: usize) -> Piece
    requires { (nat_abs l ≤ edge_limit) × (nat_abs h ≤ edge_limit) }
    ensures { (side result.lo result.hi ≡ piece_of (side l h) x) × (result.bits ≡ rest_of (side l h) x) }
{
    if l < h {
        let m = middle(l, h);
        let up = m + 1;
        let bits = x / 2;
        if x % 2 == 0 {
            Piece { lo: l, hi: m, bits }
        } else {
            Piece {
                lo: up,
                hi: h,
                bits,
            }
        }
    } else {
        Piece {
            lo: l,
            hi: h,
            bits: x,
        }
    }
}

// Child x where all long sides are halved at once: dimension 1 takes the lowest bit of x.
fn all_halved(n: usize, b: Sides, x: usize) -> Sides
    requires { (n ≤ 4) × Small edge_limit (box_of n b) × (x < length (children (box_of n b))) }
    ensures { box_of n result ≡ get_or (children (box_of n b)) x [] }
{
    let mut kid = b;
    let mut bits = x;
    for j in 0..n {
        let e = half(b.lo[j], b.hi[j], bits);
        kid.lo[j] = e.lo;
        kid.hi[j] = e.hi;
        bits = e.bits;
    }
    kid
}

// The half of the side l..h that holds v, where the sides before it make so many children: the upper half's children are numbered behind those of the lower.
fn part_of(l: i64, h: i64, v: i64, count: usize) -> Part
    requires { (nat_abs l ≤ edge_limit) × (nat_abs h ≤ edge_limit) × (count ≤ 8) }
    ensures { (side result.lo result.hi ≡ part_of (side l h) v) × (result.add ≡ count * bit_of (side l h) v) × (result.count ≡ count * length (halves (side l h))) }
{
    if l < h {
        let m = middle(l, h);
        let twice = count * 2;
        if v <= m {
            Part {
                lo: l,
                hi: m,
                add: 0,
                count: twice,
            }
        } else {
            let next = m + 1;
            Part {
                lo: next,
                hi: h,
                add: count,
                count: twice,
            }
        }
    } else {
        Part {
            lo: l,
            hi: h,
            add: 0,
            count,
        }
    }
}

// The child of a box that holds a reading that the box holds, with no child tried: each side says by itself which of its halves it is.
pub fn half_of(n: usize, b: Sides, x: [i64; 4]) -> Holder
    requires { (n ≤ 4) × Small edge_limit (box_of n b) × (holds_in n x (box_of n b) ≡ true) }
    ensures { HalfOf n (box_of n b) x result }
{
    let mut kid = b;
    let mut number: usize = 0;
    let mut count: usize = 1;
    for j in 0..n {
        let e = part_of(b.lo[j], b.hi[j], x[j], count);
        kid.lo[j] = e.lo;
        kid.hi[j] = e.hi;
        number += e.add;
        count = e.count;
    }
    Holder { kid, number, count }
}

// The dimension, from 0, of the longest side, the lowest where several are equal. No side is empty: the first leads until another reaches further.
fn longest(n: usize, b: Sides) -> usize
    requires { (n ≤ 4) × Small edge_limit (box_of n b) }
    ensures { result ≡ longest_at (box_of n b) }
{
    let mut most: i64 = 0;
    let mut place: usize = 0;
    for j in 0..n {
        let far = b.hi[j] - b.lo[j];
        if most < far {
            most = far;
            place = j;
        }
    }
    place
}

// Child x where the longest side alone is halved, lower half first. That side is long, so one edge of it moves.
fn longest_halved(n: usize, b: Sides, x: usize) -> Sides
    requires { (n ≤ 4) × Small edge_limit (box_of n b) × (x < length (longest_halved (box_of n b))) }
    ensures { box_of n result ≡ get_or (longest_halved (box_of n b)) x [] }
{
    let mut kid = b;
    let j = longest(n, b);
    let l = b.lo[j];
    let h = b.hi[j];
    let m = middle(l, h);
    if x == 0 {
        kid.hi[j] = m;
    } else {
        let above = m + 1;
        kid.lo[j] = above;
    }
    kid
}

// Child x of a box that has more than x children.
pub fn child(form: usize, n: usize, b: Sides, x: usize) -> Sides
    requires { (n ≤ 4) × Small edge_limit (box_of n b) × (x < length (children_by form (box_of n b))) }
    ensures { box_of n result ≡ get_or (children_by form (box_of n b)) x [] }
{
    if form == 3 {
        longest_halved(n, b, x)
    } else {
        all_halved(n, b, x)
    }
}

// How many children a box has by a form: 2 to the number of its long sides, in form 3 two, and none where there is no long side.
pub fn count(form: usize, n: usize, b: Sides) -> usize
    requires { n ≤ 4 }
    ensures { result ≡ length (children_by form (box_of n b)) }
{
    let mut k: usize = 1;
    for j in 0..n {
        if b.lo[j] < b.hi[j] {
            k *= 2;
        }
    }
    if k == 1 {
        0
    } else if form == 3 {
        2
    } else {
        k
    }
}

// Both orders at once: what a reading in a side and a side in a side ask.
pub fn ordered(a: i64, b: i64, c: i64, d: i64) -> bool
    ensures { result ≡ (le_z a b && le_z c d) }
{
    a <= b && c <= d
}

// The first dimension, from 0, in which a reading is outside a box; n where it is inside.
pub fn missed(n: usize, b: Sides, x: [i64; 4]) -> usize
    requires { n ≤ 4 }
    ensures { result ≡ first_false (fits (box_of n b) (reading_of n x)) }
{
    for j in 0..n {
        if !ordered(b.lo[j], x[j], x[j], b.hi[j]) {
            return j;
        }
    }
    n
}

// Whether a lies in b.
pub fn within(n: usize, a: Sides, b: Sides) -> bool
    requires { n ≤ 4 }
    ensures { result ≡ within (box_of n a) (box_of n b) }
{
    for j in 0..n {
        if !ordered(b.lo[j], a.lo[j], a.hi[j], b.hi[j]) {
            return false;
        }
    }
    true
}
