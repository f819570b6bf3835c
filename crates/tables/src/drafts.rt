// The defined table of a frame (document 01, "The defined table"), drafted in an array: what the maker and the maker of start files write. Its splits tell no
// lengths, whatever the form: module turns writes them from the draft.
// Relies on crate files for numbers, on search for a box's first pattern, on boxes for a split's children, on limits. Leaves out what is answered where
// there is no table, and whether the table works: that is proved of the definition.
ghost use Rattle.std.specs.Prelude.{◌*◌, ◌≤◌, false};
ghost use Rattle.laws.specs.Writing.{Put};
ghost use Rattle.meaning.specs.Plants.{edge_limit, most_modes};
ghost use Rattle.meaning.specs.Trees.{tile, layout};
ghost use Rattle.tables.specs.Boxes.{box_of, Small};
ghost use Rattle.tables.specs.Frames.{frame_from, rules_in, PlantSound};
ghost use Rattle.tables.specs.Limits.{limits_size, marks_size, LimitsLaid};
ghost use Rattle.tables.specs.Tiles.{longest_pattern, pattern_of};
ghost use Rattle.tables.specs.Drafts.{Wrote, tree_bytes, draft_bytes};

use crate::frames::{Counts, Frame};
use crate::levels::LONGEST;
use crate::limits::{FEW_LIMITS, FEW_MARKS, FEW_MODES, MOST_LIMITS, MOST_MARKS};
use crate::{boxes, frames, limits, search};
use files::bounds::Sides;
use files::numbers;

// No table has more bytes than MOST; none of at most BRIEF modes, which take a byte each, more than LONG; and none of such and at most sixteen tiles more than
// FEW. The zeros of a long draft are a good part of what a small house's table takes (docs/DECISIONS.md, "The maker drafts").
pub const MOST: usize = 57_345;

pub const BRIEF: usize = 128;

pub const LONG: usize = 32_769;

pub const FEW: usize = 129;

// A tile of k modes: its number, then its modes, the first k of us.
fn put_tile(buf: &mut [u8], at: usize, k: usize, us: &[usize; LONGEST]) -> usize
    requires { k ≤ longest_pattern }
    ensures { Put buf.old at (layout false (tile (pattern_of k us.now))) result buf.new }
{
    let mut place = numbers::put_number(buf, at, k);
    for j in 0..k {
        place = numbers::put_number(buf, place, us[j]);
    }
    place
}

// The defined tree of box b with depth d left: a tile of the first pattern, or where there is none a split and the trees of the children. The frame is
// taken apart, as for the walk: no call copies its boxes, which the limits stand for.
fn tree(
    f: Counts,
    edges: &[[i64; 4]; 6],
    bands: &[i64],
    coef: &[i64],
    limits: &[i64],
    marks: &[i64],
    d: usize,
    b: Sides,
    buf: &mut [u8],
    at: usize,
) -> Option<usize>
    requires { LimitsLaid (frame_from f edges.now) bands.now coef.now limits.now marks.now × Small edge_limit (box_of f.n b) }
    ensures { Wrote (tree_bytes (rules_in (frame_from f edges.now) bands.now coef.now) d (box_of f.n b)) buf.old at result buf.new }
{
    let n = f.n;
    let mut us = [0usize; LONGEST];
    let size = search::first(n, f.modes, f.q, f.k, bands, coef, limits, marks, b, &mut us);
    if size != 0 {
        return Some(put_tile(buf, at, size, &us));
    }
    if d == 0 {
        return None;
    }
    let count = boxes::count(f.form, n, b);
    if count == 0 {
        return None;
    }
    let mut place = numbers::put_number(buf, at, 0);
    for c in 0..count {
        let child = boxes::child(f.form, n, b, c);
        place = tree(
            f,
            edges,
            bands,
            coef,
            limits,
            marks,
            d - 1,
            child,
            buf,
            place,
        )?;
    }
    Some(place)
}

// The table of a frame, in arrays that have room for its limits: header, then the tree of the box that is tiled. The limits are made once, and lent from then
// on. Never inlined, so that each size of the arrays has a call of its own, and makers for few modes have no room for many on their stack.
#[inline(never)]
fn table_with<const LIMITS: usize, const MARKS: usize>(
    f: Frame,
    bands: &[i64],
    coef: &[i64],
    buf: &mut [u8],
) -> Option<usize>
    requires plant { PlantSound f bands.now coef.now }
    requires room { (limits_size * f.modes ≤ LIMITS) × (marks_size * f.modes ≤ MARKS) }
    requires small { (LIMITS ≤ limits_size * most_modes) × (MARKS ≤ marks_size * most_modes) }
    ensures { Wrote (draft_bytes (rules_in f bands.now coef.now)) buf.old 0 result buf.new }
{
    let mut limits = [0i64; LIMITS];
    let mut marks = [0i64; MARKS];
    limits::lay(f, bands, coef, &mut limits, &mut marks);
    let depth = frames::depth(f.form, f.n, f.d);
    let edges = frames::edges_of(f);
    let past_form = numbers::put_number(buf, 0, f.form);
    let past_rooms = numbers::put_number(buf, past_form, f.n);
    tree(
        frames::counts_of(f),
        &edges,
        bands,
        coef,
        &limits,
        &marks,
        depth,
        f.root,
        buf,
        past_rooms,
    )
}

// The table of a frame.
pub fn table(f: Frame, bands: &[i64], coef: &[i64], buf: &mut [u8]) -> Option<usize>
    requires { PlantSound f bands.now coef.now }
    ensures { Wrote (draft_bytes (rules_in f bands.now coef.now)) buf.old 0 result buf.new }
{
    if FEW_MODES < f.modes {
        return table_with::<MOST_LIMITS, MOST_MARKS>(f, bands, coef, buf);
    }
    table_with::<FEW_LIMITS, FEW_MARKS>(f, bands, coef, buf)
}
