// The tile that holds a reading (document 01, "The controller"). Of a split's children the one that holds the reading is gone into, and those
// before it are passed: what stands behind the tile's last mode is never read. Where a split tells lengths (document 02, request 2026-01), those before it are not
// read either.
// Relies on walks, lengths, modes and boxes, and on crate files for numbers. Leaves out whether R holds the reading, which the caller has seen, and what the tile's
// modes answer.
ghost use Rattle.std.specs.Prelude.{◌≡◌, true, false, [], ◌≤◌, ◌<◌, length};
ghost use Rattle.meaning.specs.Control.{find, tile_found};
ghost use Rattle.meaning.specs.Plants.{edge_limit};
ghost use Rattle.meaning.specs.Trees.{tells};
ghost use Rattle.meaning.specs.Verdicts.{modes_at};
ghost use Rattle.tables.specs.Boxes.{box_of, Small};
ghost use Rattle.tables.specs.Finds.{holds_in, place_of};
ghost use Rattle.tables.specs.Frames.{frame_from, rules_in, FrameSound};

use crate::frames::Counts;
use crate::{boxes, lengths, modes, refusals, walks};
use files::bounds::Sides;
use files::numbers;
use meaning::Refusal;

// A tile of k modes at `from`: found, once they are all read.
fn tile(modes: usize, k: usize, table: &[u8], from: usize) -> Result<(usize, usize), Refusal>
    requires { k ≤ 6 }
    ensures { result ≡ tile_found (modes_at modes k table.now from) from k }
{
    modes::read_modes(modes, k, table, from)?;
    Ok((from, k))
}

// Where the child of number c begins, by the lengths at `from` of so many children: all of them are read, and none may point past the table.
fn place_slowly(count: usize, c: usize, table: &[u8], from: usize) -> Result<usize, Refusal>
    requires { (from ≤ length table.now) × (c < count) }
    ensures { result ≡ place_of count c table.now from }
{
    let told = lengths::told(2, count);
    let first = lengths::behind(told, table, from)?;
    lengths::ends(told, table, from, first)?;
    lengths::ends(c, table, from, first)
}

// The same in one pass over the lengths, where nothing is wrong with them; what is wrong is told by reading them again.
fn place_of(count: usize, c: usize, table: &[u8], from: usize) -> Result<usize, Refusal>
    requires { (from ≤ length table.now) × (c < count) × (count ≤ 16) }
    ensures { result ≡ place_of count c table.now from }
{
    let Some((passed, mid)) = lengths::total(c, table, from) else {
        return place_slowly(count, c, table, from);
    };
    let Some((rest, first)) = lengths::total(count - 1 - c, table, mid) else {
        return place_slowly(count, c, table, from);
    };
    if table.len() - first < passed + rest {
        return place_slowly(count, c, table, from);
    }
    Ok(first + passed)
}

// The tile in the tree at `at`, over box b with depth d left, of a form that tells no lengths: the children before the one that holds the reading are walked over.
// It hangs on no band and no coefficient, so the walk is lent a zero for each. As in walks::walk the loop is its own, so that the compiler makes one for each way to
// split.
fn find_walking(
    f: Counts,
    edges: &[[i64; 4]; 6],
    table: &[u8],
    d: usize,
    at: usize,
    b: Sides,
    x: [i64; 4],
) -> Result<(usize, usize), Refusal>
    requires { FrameSound (frame_from f edges.now) × Small edge_limit (box_of f.n b) × (tells f.form ≡ false) }
    ensures { result ≡ find (rules_in (frame_from f edges.now) [] []) d table.now at (box_of f.n b) x }
{
    let (k, next) = numbers::number(table, at).ok_or(files::refusals::broken(at))?;
    let n = f.n;
    if f.k < k {
        return Err(refusals::bad_table(at));
    }
    if 0 < k {
        return tile(f.modes, k, table, next);
    }
    if d == 0 {
        return Err(refusals::bad_table(at));
    }
    let none = [0i64; 1];
    let count = boxes::count(f.form, n, b);
    let mut place = next;
    for c in 0..count {
        let child = boxes::child(f.form, n, b, c);
        if n <= boxes::missed(n, child, x) {
            return find_walking(f, edges, table, d - 1, place, child, x);
        }
        place = walks::walk(f, edges, &none, &none, false, table, d - 1, place, child)?;
    }
    // No child holds the reading, or the box has none.
    Err(refusals::bad_table(at))
}

// The tile in the tree at `at`, over box b with depth d left, which holds the reading. By lengths it goes straight down, in a loop; else by walking.
pub fn find(
    f: Counts,
    edges: &[[i64; 4]; 6],
    table: &[u8],
    d: usize,
    at: usize,
    b: Sides,
    x: [i64; 4],
) -> Result<(usize, usize), Refusal>
    requires { FrameSound (frame_from f edges.now) × Small edge_limit (box_of f.n b) × (holds_in f.n x (box_of f.n b) ≡ true) }
    ensures { result ≡ find (rules_in (frame_from f edges.now) [] []) d table.now at (box_of f.n b) x }
{
    if f.form != 2 {
        return find_walking(f, edges, table, d, at, b, x);
    }
    let mut place = at;
    let mut here = b;
    let mut left = d;
    loop {
        let (k, next) = numbers::number(table, place).ok_or(files::refusals::broken(place))?;
        if f.k < k {
            return Err(refusals::bad_table(place));
        }
        if 0 < k {
            return tile(f.modes, k, table, next);
        }
        if left == 0 {
            return Err(refusals::bad_table(place));
        }
        let half = boxes::half_of(f.n, here, x);
        if half.count == 1 {
            return Err(refusals::bad_table(place));
        }
        place = place_of(half.count, half.number, table, next)?;
        here = half.kid;
        left -= 1;
    }
}
