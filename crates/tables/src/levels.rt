// Boxes side by side in one array: of each four lows, then four highs. The search keeps the images along a beginning so, level by level, and its
// limits are laid out the same way.
// Relies on images for a pair of numbers and for one term of a row. Leaves out which box stands where (limits, search).
ghost use Rattle.std.specs.Prelude.{◌≡◌, ◌+◌, ◌≤◌, ◌<◌, length, nat_abs, ◌+ℤ◌};
ghost use Rattle.laws.specs.Lists.{at};
ghost use Rattle.meaning.specs.Boxes.{side};
ghost use Rattle.meaning.specs.Images.{least_of, greatest_of};
ghost use Rattle.meaning.specs.Plants.{edge_limit, entry_limit};
ghost use Rattle.tables.specs.Boxes.{box_of, Small};
ghost use Rattle.promises.specs.Files.Sound.{Bounded};
ghost use Rattle.tables.specs.Images.{row_limit, entries_of, RowSound, Extremes};
ghost use Rattle.tables.specs.Levels.{wide, room, side_in, box_in, stored};

use crate::images;
use crate::images::Span;
use files::bounds::Sides;

// The modes of the longest pattern; the numbers of a box, and of a box for each of those modes.
pub const LONGEST: usize = 6;

pub const WIDE: usize = 8;

pub const ROOM: usize = 48;

// Side i of the box at `place`.
pub fn put_side(boxes: &mut [i64], place: usize, i: usize, lo: i64, hi: i64)
    requires { (place + wide ≤ length boxes.old) × (i < 4) }
    ensures { boxes.new ≡ stored boxes.old place i (side lo hi) }
{
    boxes[place + i] = lo;
    boxes[place + 4 + i] = hi;
}

// Box b, in front.
pub fn begin(n: usize, b: Sides, boxes: &mut [i64; ROOM])
    requires { (n ≤ 4) × (length boxes.old ≡ room) × Small edge_limit (box_of n b) }
    ensures { (box_in n boxes.new 0 ≡ box_of n b) × (length boxes.new ≡ room) }
{
    for i in 0..n {
        put_side(boxes, 0, i, b.lo[i], b.hi[i]);
    }
}

// One more term of a row: s and entry j, taken over side j of the box at `place`.
fn more(coef: &[i64], start: usize, j: usize, boxes: &[i64; ROOM], place: usize, s: Span) -> Span
    requires place { (j < 4) × (start + j < length coef.now) × (place + wide ≤ room) }
    requires entry { (nat_abs (at coef.now (start + j)) ≤ entry_limit) × Bounded edge_limit (side_in boxes.now place j) }
    requires sums { (nat_abs s.lo ≤ row_limit) × (nat_abs s.hi ≤ row_limit) }
    ensures least { result.lo ≡ s.lo +ℤ least_of (at coef.now (start + j)) (side_in boxes.now place j) }
    ensures greatest { result.hi ≡ s.hi +ℤ greatest_of (at coef.now (start + j)) (side_in boxes.now place j) }
{
    let a = coef[start + j];
    let l = boxes[place + j];
    let h = boxes[place + 4 + j];
    let t = images::term(a, l, h);
    let least = s.lo + t.lo;
    let greatest = s.hi + t.hi;
    Span {
        lo: least,
        hi: greatest,
    }
}

// The least and the greatest of A·x over the box at `place`, A being the row that starts at `start`: as images has it of a box by itself.
pub fn extremes(n: usize, coef: &[i64], start: usize, boxes: &[i64; ROOM], place: usize) -> Span
    requires { RowSound n coef.now start × (place + wide ≤ room) × Small edge_limit (box_in n boxes.now place) }
    ensures { Extremes (entries_of n coef.now start) (box_in n boxes.now place) result.lo result.hi }
{
    let none = Span { lo: 0, hi: 0 };
    let one = more(coef, start, 0, boxes, place, none);
    if n == 1 {
        return one;
    }
    let two = more(coef, start, 1, boxes, place, one);
    if n == 2 {
        return two;
    }
    let three = more(coef, start, 2, boxes, place, two);
    if n == 3 {
        return three;
    }
    more(coef, start, 3, boxes, place, three)
}
