// Boxes of a listing (document 01, "Split"; request 2026-06): how many children a box has by a table's form, and each of them; and a box as text. Relies on
// crate figures for text. Leaves out what a box is for.
// Any box is taken: a side that reaches beyond the edges that document 01 allows is never split. Form 3 halves the longest side; every other form is taken
// as form 1, which halves all long sides at once.
ghost use Rattle.std.specs.Prelude.{◌≤◌, pos, ◌<ℤ◌, unsigned_abs, length};

use figures::lines::Lines;
use meaning::Outline;
use std::alloc::AllocError;
use std::array;

#[derive(Clone, Copy)]
pub struct Side {
    pub lo: i64,
    pub hi: i64,
}

impl Side {
    // How far the side reaches if it may be split, hi - lo. One that may not, of one count or beyond document 01's edges, reaches 0.
    fn reach(self) -> i64
        ensures { (unsigned_abs result ≤ 2_000_000) × (pos 0 <ℤ result → unsigned_abs self.lo ≤ 1_000_000) }
    {
        if self.lo < -1_000_000 || 1_000_000 < self.hi || self.hi <= self.lo {
            return 0;
        }
        self.hi - self.lo
    }

    fn is_long(&self) -> bool {
        0 < self.reach()
    }

    // A half of the side: lo..m or m + 1..hi, m the floor of (lo + hi) / 2. hi - lo is above 0, so cutting it in two rounds down. A side that may not be
    // split stays.
    fn half(self, upper: bool) -> Side {
        let far = self.reach();
        if far <= 0 {
            return self;
        }
        let Side { lo, hi } = self;
        let m = lo + far / 2;
        if upper {
            Side { lo: m + 1, hi }
        } else {
            Side { lo, hi: m }
        }
    }

    // Lo and hi, each with a blank behind it.
    fn tell(self, lines: &mut Lines) -> Result<(), AllocError> {
        lines.signed(self.lo)?;
        lines.text(" ")?;
        lines.signed(self.hi)?;
        lines.text(" ")
    }
}

// The first n sides count.
#[derive(Clone, Copy)]
pub struct Bx {
    sides: [Side; 4],
    n: usize,
    ghost few: { n ≤ 4 },
}

// A plant's R.
impl From<&Outline> for Bx {
    fn from(p: &Outline) -> Bx {
        let side = |j: usize| Side {
            lo: p.rlo[j],
            hi: p.rhi[j],
        };
        Bx::new(p.n, array::from_fn(side))
    }
}

impl Bx {
    // No box has more than four sides.
    pub fn new(n: usize, sides: [Side; 4]) -> Bx {
        Bx { sides, n: n.min(4) }
    }

    pub fn sides(&self) -> &[Side]
        ensures { length result.now ≤ 4 }
    {
        &self.sides[..self.n]
    }

    // How many children the box has: 2 to the number of the sides that are split, in form 3 two; 1 says that it has none.
    pub fn count(&self, form: usize) -> usize
        ensures { result ≤ 16 }
    {
        let long = self.sides().iter().filter(|side| side.is_long()).count();
        if form == 3 {
            1 << long.min(1)
        } else {
            1 << long
        }
    }

    // Child x where all sides that may be are split at once: the lowest bit of x is for the first of them.
    fn all_halved(self, x: usize) -> Bx {
        let Bx { mut sides, n } = self;
        let mut bits = x;
        for side in &mut sides[..n] {
            if side.is_long() {
                *side = side.half(bits % 2 == 1);
                bits /= 2;
            }
        }
        Bx { sides, n }
    }

    // The side that reaches furthest, the lowest where several do.
    fn longest(&self) -> usize
        ensures { result ≤ 3 }
    {
        let mut furthest = 0;
        let mut place = 0;
        for (j, side) in self.sides().iter().enumerate() {
            let far = side.reach();
            if furthest < far {
                furthest = far;
                place = j;
            }
        }
        place
    }

    // Child x where the longest side alone is split.
    fn longest_halved(self, x: usize) -> Bx {
        let j = self.longest();
        let Bx { mut sides, n } = self;
        sides[j] = sides[j].half(x % 2 == 1);
        Bx { sides, n }
    }

    // Child x, in file order.
    pub fn child(self, form: usize, x: usize) -> Bx {
        if form == 3 {
            self.longest_halved(x)
        } else {
            self.all_halved(x)
        }
    }

    // The sides, one behind another, each number with a blank behind it.
    pub fn tell(&self, lines: &mut Lines) -> Result<(), AllocError> {
        for side in self.sides() {
            side.tell(lines)?;
        }
        Ok(())
    }
}
