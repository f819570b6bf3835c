// One mode on a box, as the search needs it: whether the image lies in the goal, the first mode whose image does, and the image where it lies in S.
// Relies on levels for the boxes and the extremes of a row, on limits for where the sums have to lie. Leaves out which modes are tried in which
// order (search).
// Neither test divides. What a call reads is lent, so that it copies only small numbers.
ghost use Rattle.std.specs.Prelude.{◌≡◌, true, false, ℕ, ◌+◌, ◌-◌, ◌*◌, ◌≤◌, ◌<◌, length, nat_abs, pos, IfSome, IfNone};
ghost use Rattle.laws.specs.Lists.{at, tab};
ghost use Rattle.meaning.specs.Boxes.{side, covers};
ghost use Rattle.meaning.specs.Defined.{first_mode};
ghost use Rattle.meaning.specs.Plants.{edge_limit};
ghost use Rattle.tables.specs.Boxes.{box_of, Small};
ghost use Rattle.tables.specs.Images.{RowSound, Extremes};
ghost use Rattle.tables.specs.Levels.{wide, room, side_in, box_in, Beside};
ghost use Rattle.tables.specs.Limits.{add_limit, limits_size, safe_at, goal_at, mark_at, offset_at, sum_side, sums_at, covered, stays_lent, lands_lent, image_lent, landing, divided_in, Within, RowsSound, BandsSound, last_entries, last_offset, MarksLent};
ghost use Rattle.tables.specs.Search.{one_of};

use crate::images::Span;
use crate::levels::{ROOM, WIDE};
use crate::limits::{GOAL, PAIR, SPAN};
use crate::{boxes, division, images, levels};
use files::bounds::Sides;

// The least and the greatest of A·x + b over the box at `place`, by the row that starts at `start`.
fn sums(n: usize, coef: &[i64], start: usize, boxes: &[i64; ROOM], place: usize) -> Span
    requires { RowSound n coef.now start × (place + wide ≤ room) × Small edge_limit (box_in n boxes.now place) }
    ensures sides { side result.lo result.hi ≡ sum_side n coef.now start (box_in n boxes.now place) }
    ensures sizes { (nat_abs result.lo ≤ add_limit) × (nat_abs result.hi ≤ add_limit) }
{
    let e = levels::extremes(n, coef, start, boxes, place);
    let offset = coef[start + n];
    let least = e.lo + offset;
    let greatest = e.hi + offset;
    Span {
        lo: least,
        hi: greatest,
    }
}

// Whether sums lie in side i of the limits at `base`.
fn inside(limits: &[i64], base: usize, i: usize, least: i64, greatest: i64) -> bool
    requires { (base + wide ≤ length limits.now) × (i < 4) }
    ensures { result ≡ covers (side_in limits.now base i) (side least greatest) }
{
    let from = limits[base + i];
    let to = limits[base + 4 + i];
    boxes::ordered(from, least, greatest, to)
}

// Whether the sums under mode u over the box at `place` lie in the limits at `base`; where they do they are left in `kept`, of which otherwise nothing is
// said. It is lent: as a part of an answer the sums would be copied whole right after they are written one by one, for which a processor waits.
fn stays(
    n: usize,
    coef: &[i64],
    limits: &[i64],
    base: usize,
    u: usize,
    boxes: &[i64; ROOM],
    place: usize,
    kept: &mut Sides,
) -> bool
    requires rows { RowsSound n coef.now u × (base + wide ≤ length limits.now) }
    requires edges { (place + wide ≤ room) × Small edge_limit (box_in n boxes.now place) × (length kept.old.lo ≡ 4) × (length kept.old.hi ≡ 4) }
    ensures stays { result ≡ covered n coef.now limits.now base u (box_in n boxes.now place) }
    ensures sums { result ≡ true → box_of n kept.new ≡ tab (sums_at n coef.now u (box_in n boxes.now place)) n 0 }
    ensures sizes { result ≡ true → Within add_limit n kept.new.lo kept.new.hi }
{
    for i in 0..n {
        let s = sums(n, coef, (u * n + i) * (n + 1), boxes, place);
        if !inside(limits, base, i, s.lo, s.hi) {
            return false;
        }
        kept.lo[i] = s.lo;
        kept.hi[i] = s.hi;
    }
    true
}

// The sides of an image under mode u from its sums, put at `place`: with the band added, divided by q.
fn divide(
    n: usize,
    q: usize,
    bands: &[i64],
    u: usize,
    slo: &[i64; 4],
    shi: &[i64; 4],
    boxes: &mut [i64; ROOM],
    place: usize,
)
    requires step { (n ≤ 4) × (1 ≤ q) × (q ≤ 10_000) × BandsSound n bands.now u }
    requires sums { Within add_limit n slo.now shi.now × (place + wide ≤ room) × (length boxes.old ≡ room) }
    ensures sides { box_in n boxes.new place ≡ tab (divided_in n q bands.now u slo.now shi.now) n 0 }
    ensures beside { Beside place boxes.old boxes.new }
{
    for i in 0..n {
        let band = images::band(n, u, i);
        let low = division::ceiling(slo[i] + bands[band], q);
        let high = division::floor(shi[i] + bands[band + 1], q);
        levels::put_side(boxes, place, i, low, high);
    }
}

// Whether the image of the box at `place` under mode u lies in S; where it does it is left behind that box, and otherwise nothing is written. What
// leaves S is not divided.
pub fn step(
    n: usize,
    q: usize,
    bands: &[i64],
    coef: &[i64],
    limits: &[i64],
    u: usize,
    boxes: &mut [i64; ROOM],
    place: usize,
) -> bool
    requires step { RowsSound n coef.now u × (n ≤ 4) × (1 ≤ q) × (q ≤ 10_000) × BandsSound n bands.now u × (safe_at u + wide ≤ length limits.now) }
    requires edges { (place + wide + wide ≤ room) × Small edge_limit (box_in n boxes.old place) × (length boxes.old ≡ room) }
    ensures stays { result ≡ stays_lent n coef.now limits.now u (box_in n boxes.old place) }
    ensures image { result ≡ true → box_in n boxes.new (place + wide) ≡ image_lent n q bands.now coef.now u (box_in n boxes.old place) }
    ensures beside { Beside (place + wide) boxes.old boxes.new }
    ensures untouched { result ≡ false → boxes.new ≡ boxes.old }
{
    let mut kept = Sides::default();
    if stays(n, coef, limits, SPAN * u, u, boxes, place, &mut kept) {
        divide(n, q, bands, u, &kept.lo, &kept.hi, boxes, place + WIDE);
        return true;
    }
    false
}

// The extremes of the last row under mode u: e where the mode is marked, which then are those of the mode before.
fn shared(
    n: usize,
    coef: &[i64],
    marks: &[i64],
    u: usize,
    e: Span,
    boxes: &[i64; ROOM],
    place: usize,
) -> Span
    requires row { (mark_at u < length marks.now) × (1 ≤ n) × RowsSound n coef.now u × (place + wide ≤ room) × Small edge_limit (box_in n boxes.now place) }
    requires kept { (at marks.now (mark_at u) ≡ pos 0 → ⊥) → Extremes (last_entries n coef.now u) (box_in n boxes.now place) e.lo e.hi }
    ensures { Extremes (last_entries n coef.now u) (box_in n boxes.now place) result.lo result.hi }
{
    let mark = marks[PAIR * u];
    if mark == 0 {
        let start = images::row(n, u, n - 1);
        return levels::extremes(n, coef, start, boxes, place);
    }
    e
}

// Whether the sums under mode u over the box at `place` lie in the limits at `base`. Never inlined: few modes come to it, and the loop over them stays small.
#[inline(never)]
fn keeps(
    n: usize,
    coef: &[i64],
    limits: &[i64],
    base: usize,
    u: usize,
    boxes: &[i64; ROOM],
    place: usize,
) -> bool
    requires rows { RowsSound n coef.now u × (base + wide ≤ length limits.now) }
    requires edges { (place + wide ≤ room) × Small edge_limit (box_in n boxes.now place) }
    ensures { result ≡ covered n coef.now limits.now base u (box_in n boxes.now place) }
{
    let mut kept = Sides::default();
    stays(n, coef, limits, base, u, boxes, place, &mut kept)
}

// Whether the image under mode u lies in the goal. The last row is tried first, by its extremes e; most modes fail there, and need no other sum. The limits
// are lent on as a part, the whole, which is made where all rows are tried: lent on as they are, they would be put by for that at every mode.
fn lands(
    n: usize,
    coef: &[i64],
    limits: &[i64],
    marks: &[i64],
    u: usize,
    e: Span,
    boxes: &[i64; ROOM],
    place: usize,
) -> bool
    requires row { (goal_at u + wide ≤ length limits.now) × (1 ≤ n) × RowsSound n coef.now u × (place + wide ≤ room) × Small edge_limit (box_in n boxes.now place) }
    requires last { Extremes (last_entries n coef.now u) (box_in n boxes.now place) e.lo e.hi × (at marks.now (offset_at u) ≡ last_offset n coef.now u) × (offset_at u < length marks.now) }
    ensures { result ≡ lands_lent n coef.now limits.now u (box_in n boxes.now place) }
{
    let offset = marks[PAIR * u + 1];
    let base = SPAN * u + GOAL;
    if inside(limits, base, n - 1, e.lo + offset, e.hi + offset) {
        let whole: usize = 0;
        return keeps(n, coef, &limits[whole..], base, u, boxes, place);
    }
    false
}

// The first mode under which the image of the box at `place` lies in the goal.
pub fn last(
    n: usize,
    count: usize,
    coef: &[i64],
    limits: &[i64],
    marks: &[i64],
    boxes: &[i64; ROOM],
    place: usize,
) -> Option<usize>
    requires rows { (1 ≤ n) × ((u : ℕ) → u < count → RowsSound n coef.now u) × (limits_size * count ≤ length limits.now) × MarksLent n count coef.now marks.now }
    requires edges { (place + wide ≤ room) × Small edge_limit (box_in n boxes.now place) }
    ensures found { IfSome result (λ u. (u < count) × (one_of count u ≡ first_mode (landing n coef.now limits.now (box_in n boxes.now place)) count 0)) }
    ensures none { IfNone result (one_of count count ≡ first_mode (landing n coef.now limits.now (box_in n boxes.now place)) count 0) }
{
    let mut e = Span { lo: 0, hi: 0 };
    for u in 0..count {
        e = shared(n, coef, marks, u, e, boxes, place);
        if lands(n, coef, limits, marks, u, e, boxes, place) {
            return Some(u);
        }
    }
    None
}
