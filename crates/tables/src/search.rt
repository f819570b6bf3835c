// The first pattern of a box (document 01, "The defined table"): the shortest that works, and among equal lengths the first in mode order, by
// nested loops over lengths and patterns that are left with the first that works.
// Relies on levels for the images along a beginning, on steps for one more mode. Leaves out what is done where a box has none (drafts).
// A beginning is a path of levels: level 0 is the box, and us[j] the mode whose image of level j stands at level j + 1; the number of modes where
// none stands there. What stands is not made again, at the next length either, and where an image leaves S nothing behind it is tried.
ghost use Rattle.std.specs.Prelude.{◌≡◌, true, suc, ◌+◌, ◌≤◌, ◌<◌, length};
ghost use Rattle.meaning.specs.Plants.{edge_limit};
ghost use Rattle.tables.specs.Boxes.{box_of, Small};
ghost use Rattle.tables.specs.Levels.{level_in};
ghost use Rattle.tables.specs.Limits.{stays_lent, image_lent, Lent, MarksLent};
ghost use Rattle.tables.specs.Tiles.{longest_pattern, mode_at};
ghost use Rattle.tables.specs.Search.{pattern_by, shortest_lent, Standing, SameTo};

use crate::levels::{LONGEST, ROOM, WIDE};
use crate::{levels, steps};
use files::bounds::Sides;

// Whether the image of level l under mode u lies in S; where it does it stands at level l + 1, and the modes up to u are us[0..=l].
fn descend(
    n: usize,
    count: usize,
    q: usize,
    bands: &[i64],
    coef: &[i64],
    limits: &[i64],
    l: usize,
    u: usize,
    us: &mut [usize; LONGEST],
    boxes: &mut [i64; ROOM],
) -> bool
    requires lent { Lent n count q bands.now coef.now limits.now × (suc l < longest_pattern) × (u < count) }
    requires level { Standing n count q bands.now coef.now limits.now boxes.old us.old × Small edge_limit (level_in n boxes.old l) }
    ensures stays { result ≡ stays_lent n coef.now limits.now u (level_in n boxes.old l) }
    ensures standing { Standing n count q bands.now coef.now limits.now boxes.new us.new }
    ensures same { SameTo n l boxes.old us.old boxes.new us.new }
    ensures new { result ≡ true → (mode_at us.new l ≡ u) × (level_in n boxes.new (suc l) ≡ image_lent n q bands.now coef.now u (level_in n boxes.old l)) }
{
    if us[l] == u {
        return true;
    }
    if steps::step(n, q, bands, coef, limits, u, boxes, WIDE * l) {
        us[l] = u;
        us[l + 1] = count;
        return true;
    }
    false
}

// The first pattern of a box: how many modes it has, 0 where there is none, and in us the modes. Lengths from 1 on, at each the patterns in order:
// m modes stand in front of the last, and u is tried on level l.
pub fn first(
    n: usize,
    count: usize,
    q: usize,
    k: usize,
    bands: &[i64],
    coef: &[i64],
    limits: &[i64],
    marks: &[i64],
    b: Sides,
    us: &mut [usize; LONGEST],
) -> usize
    requires { Lent n count q bands.now coef.now limits.now × (k ≤ longest_pattern) × Small edge_limit (box_of n b) × MarksLent n count coef.now marks.now }
    ensures pattern { pattern_by result us.new ≡ shortest_lent n count q bands.now coef.now limits.now k (box_of n b) }
    ensures size { (result ≤ longest_pattern) × (length us.new ≡ longest_pattern) }
{
    let mut boxes = [0i64; ROOM];
    levels::begin(n, b, &mut boxes);
    *us = [count; LONGEST];
    let mut size: usize = 0;
    'search: for m in 0..k {
        let mut l: usize = 0;
        let mut u: usize = 0;
        loop {
            if u == count {
                if l == 0 {
                    break;
                }
                l -= 1;
                u = us[l] + 1;
                continue;
            }
            if l == m {
                if let Some(v) = steps::last(n, count, coef, limits, marks, &boxes, WIDE * l) {
                    us[l] = v;
                    size = m + 1;
                    break 'search;
                }
                u = count;
                continue;
            }
            if descend(n, count, q, bands, coef, limits, l, u, us, &mut boxes) {
                l += 1;
                u = 0;
                continue;
            }
            u += 1;
        }
    }
    size
}
