// The walk over a table's tree (document 01, "Table file" and the order of judgement): one pass, in file order; the checker's, which judges each tile by
// the tile rule, and the passing of a subtree, which reads its numbers as the checker does and tests no image, so that it asks nothing of bands and
// coefficients. Forms that tell no lengths (document 02, request 2026-01) have a walk of their own.
// Relies on crate files for numbers, on modes and tiles for a tile, on boxes for a split's children, on lengths for what it tells of them. Leaves out the
// header before the tree and what stands behind it.
ghost use Rattle.std.specs.Prelude.{◌≡◌, true, false, ◌≤◌};
ghost use Rattle.meaning.specs.Plants.{edge_limit};
ghost use Rattle.meaning.specs.Trees.{tells};
ghost use Rattle.meaning.specs.Verdicts.{on_modes, modes_at};
ghost use Rattle.tables.specs.Boxes.{box_of, Small};
ghost use Rattle.tables.specs.Frames.{frame_from, rules_in, FrameSound, ModesSound};
ghost use Rattle.tables.specs.Walks.{judge_by, walk_by};

use crate::frames::Counts;
use crate::{boxes, lengths, modes, refusals, tiles};
use files::bounds::Sides;
use files::numbers;
use meaning::{Refusal, Tried};

// The tile at `at`, whose k modes begin at `from`: all of them are read before an image is tested. A fault of the pattern is told at the tile.
fn tile(
    f: Counts,
    edges: &[[i64; 4]; 6],
    bands: &[i64],
    coef: &[i64],
    judged: bool,
    table: &[u8],
    at: usize,
    k: usize,
    from: usize,
    b: Sides,
) -> Result<usize, Refusal>
    requires frame { FrameSound (frame_from f edges.now) × Small edge_limit (box_of f.n b) × (judged ≡ true → ModesSound f.n f.modes f.q bands.now coef.now) }
    requires size { k ≤ f.k }
    ensures { result ≡ on_modes (modes_at f.modes k table.now from) at (judge_by judged (rules_in (frame_from f edges.now) bands.now coef.now) (box_of f.n b)) }
{
    let (us, next) = modes::read_modes(f.modes, k, table, from)?;
    if judged {
        match tiles::tile_rule(f, edges, bands, coef, k, us, b) {
            Tried::Works => Ok(next),
            Tried::Leaves(i) => Err(refusals::leaves(at, i)),
            Tried::Misses(i) => Err(refusals::misses(at, i)),
        }
    } else {
        Ok(next)
    }
}

// The tree at `at`, over box b with depth d left, of a form that tells no lengths: the place behind it, or the first fault in file order. It has a loop
// of its own, in which nothing is asked of lengths: the compiler then makes one for each way to split, and walks faster.
pub fn walk(
    f: Counts,
    edges: &[[i64; 4]; 6],
    bands: &[i64],
    coef: &[i64],
    judged: bool,
    table: &[u8],
    d: usize,
    at: usize,
    b: Sides,
) -> Result<usize, Refusal>
    requires { FrameSound (frame_from f edges.now) × Small edge_limit (box_of f.n b) × (judged ≡ true → ModesSound f.n f.modes f.q bands.now coef.now) × (tells f.form ≡ false) }
    ensures { result ≡ walk_by judged (rules_in (frame_from f edges.now) bands.now coef.now) d table.now at (box_of f.n b) }
{
    let (k, next) = numbers::number(table, at).ok_or(files::refusals::broken(at))?;
    if f.k < k {
        return Err(refusals::bad_table(at));
    }
    if 0 < k {
        return tile(f, edges, bands, coef, judged, table, at, k, next, b);
    }
    if d == 0 {
        return Err(refusals::bad_table(at));
    }
    let n = f.n;
    let count = boxes::count(f.form, n, b);
    if count == 0 {
        return Err(refusals::bad_table(at));
    }
    let mut place = next;
    for c in 0..count {
        let child = boxes::child(f.form, n, b, c);
        place = walk(f, edges, bands, coef, judged, table, d - 1, place, child)?;
    }
    Ok(place)
}

// The same of any form. Where a split tells lengths, all are read before its children, and each child is held to its own as soon as it is read; the cursor
// stands at the next of them.
pub fn walk_told(
    f: Counts,
    edges: &[[i64; 4]; 6],
    bands: &[i64],
    coef: &[i64],
    judged: bool,
    table: &[u8],
    d: usize,
    at: usize,
    b: Sides,
) -> Result<usize, Refusal>
    requires { FrameSound (frame_from f edges.now) × Small edge_limit (box_of f.n b) × (judged ≡ true → ModesSound f.n f.modes f.q bands.now coef.now) }
    ensures { result ≡ walk_by judged (rules_in (frame_from f edges.now) bands.now coef.now) d table.now at (box_of f.n b) }
{
    let (k, next) = numbers::number(table, at).ok_or(files::refusals::broken(at))?;
    if f.k < k {
        return Err(refusals::bad_table(at));
    }
    if 0 < k {
        // A tile is judged alike in every form. It is asked of the other walk, so that the tile's function is called in one place and the compiler keeps it in
        // the loop there.
        let plain = Counts { form: 1, ..f };
        return walk(plain, edges, bands, coef, judged, table, d, at, b);
    }
    if d == 0 {
        return Err(refusals::bad_table(at));
    }
    let count = boxes::count(f.form, f.n, b);
    if count == 0 {
        return Err(refusals::bad_table(at));
    }
    let told = lengths::told(f.form, count);
    let mut cursor = next;
    let mut place = lengths::behind(told, table, next)?;
    for c in 0..count {
        let child = boxes::child(f.form, f.n, b, c);
        let past = walk_told(f, edges, bands, coef, judged, table, d - 1, place, child)?;
        cursor = lengths::held(c < told, table, cursor, place, past)?;
        place = past;
    }
    Ok(place)
}
