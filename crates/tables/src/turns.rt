// A tree's bytes turned from one layout into the other (document 02, request 2026-01): a tree whose splits tell no lengths into one whose splits do, as the
// maker turns its draft, or back.
// Relies on crate files for numbers and for bytes that are copied, on boxes for how many children a split has, on lengths for what may stand before them.
// Leaves out whose tree it is: that one lies there is asked of the caller, so what is read here is never broken.
ghost use Rattle.std.specs.Prelude.{◌≡◌, false, ◌+◌, ◌-◌, ◌≤◌, length, take, drop};
ghost use Rattle.laws.specs.Writing.{Put};
ghost use Rattle.meaning.specs.Plants.{edge_limit};
ghost use Rattle.meaning.specs.Tables.{children_by};
ghost use Rattle.tables.specs.Boxes.{box_of, Small};
ghost use Rattle.tables.specs.Frames.{FrameSound};
ghost use Rattle.tables.specs.Turns.{most_tree, CountsSound, Passed, length_if, SomeTree, SomeTrees, SomeSplit, Measured, Told, Between, Turns, SomeTable, TableTurned, TableSized, TableLeft};

use crate::frames::{Counts, Frame};
use crate::{boxes, frames, lengths};
use files::bounds::Sides;
use files::{buffers, numbers};
use meaning::Refusal;

// The place behind a tree, and how many bytes it has where lengths are told.
#[derive(Clone, Copy)]
pub struct Size {
    pub behind: usize,
    pub size: usize,
}

// The place behind what was read, and the one behind what was written.
#[derive(Clone, Copy)]
pub struct Turned {
    pub behind: usize,
    pub to: usize,
}

// The place behind k numbers, none of which is broken.
fn passed(k: usize, table: &[u8], at: usize) -> usize
    ensures { Passed k table.now at result }
{
    lengths::behind(k, table, at).unwrap_or(at)
}

// How many bytes a length takes, where it is told.
fn long(told: bool, size: usize) -> usize
    requires { size ≤ most_tree }
    ensures { result ≡ length_if told size }
{
    if told {
        let mut room = [0u8; 3];
        return numbers::put_number(&mut room, 0, size);
    }
    0
}

// The tree at `at`, whose splits tell no lengths, over box b with depth d left.
fn sized(f: Counts, table: &[u8], d: usize, b: Sides, at: usize) -> Size
    requires { CountsSound f × Small edge_limit (box_of f.n b) × SomeTree f false table.now d (box_of f.n b) at }
    ensures { Measured f table.now d (box_of f.n b) at result }
{
    let Some((k, next)) = numbers::number(table, at) else {
        unreachable!();
    };
    if 0 < k {
        let behind = passed(k, table, next);
        return Size {
            behind,
            size: behind - at,
        };
    }
    let count = boxes::count(f.form, f.n, b);
    let mut place = next;
    let mut size: usize = 1;
    for c in 0..count {
        let child = boxes::child(f.form, f.n, b, c);
        let kid = sized(f, table, d - 1, child, place);
        let told = long(c + 1 < count, kid.size);
        size += kid.size + told;
        place = kid.behind;
    }
    Size {
        behind: place,
        size,
    }
}

// The lengths of box b's children, count of them, that lie from `at` on: of all but the last.
fn tell(
    f: Counts,
    table: &[u8],
    d: usize,
    b: Sides,
    count: usize,
    at: usize,
    buf: &mut [u8],
    to: usize,
) -> usize
    requires counts { CountsSound f × Small edge_limit (box_of f.n b) × (count ≡ length (children_by f.form (box_of f.n b))) × (1 ≤ count) }
    requires trees { SomeTrees f false table.now d (children_by f.form (box_of f.n b)) at }
    requires place { to ≤ length buf.old + 1 }
    ensures { Told f table.now d (children_by f.form (box_of f.n b)) at buf.old to result buf.new }
{
    let mut place = at;
    let mut past = to;
    for c in 0..count - 1 {
        let child = boxes::child(f.form, f.n, b, c);
        let kid = sized(f, table, d, child, place);
        past = numbers::put_number(buf, past, kid.size);
        place = kid.behind;
    }
    past
}

// A tile's bytes, which end at `end`.
fn copy(table: &[u8], at: usize, end: usize, buf: &mut [u8], to: usize) -> usize
    requires { (at ≤ end) × (end ≤ length table.now) }
    ensures { Put buf.old to (take (end - at) (drop at table.now)) result buf.new }
{
    buffers::put_bytes(buf, to, &table[at..end])
}

// What stands between a split's 0 and its children: lengths are passed over where they are told, and else they are written.
fn between(
    f: Counts,
    told: bool,
    table: &[u8],
    d: usize,
    b: Sides,
    count: usize,
    at: usize,
    buf: &mut [u8],
    to: usize,
) -> Turned
    requires counts { CountsSound f × Small edge_limit (box_of f.n b) × (count ≡ length (children_by f.form (box_of f.n b))) × (1 ≤ count) }
    requires trees { SomeSplit f told table.now d (children_by f.form (box_of f.n b)) at }
    requires place { to ≤ length buf.old + 1 }
    ensures { Between f told table.now d (children_by f.form (box_of f.n b)) at buf.old to result buf.new }
{
    if told {
        return Turned {
            behind: passed(count - 1, table, at),
            to,
        };
    }
    Turned {
        behind: at,
        to: tell(f, table, d, b, count, at, buf, to),
    }
}

// The tree at `at`, over box b with depth d left: a tile's bytes are the same in both layouts.
fn turn(
    f: Counts,
    told: bool,
    table: &[u8],
    d: usize,
    b: Sides,
    at: usize,
    buf: &mut [u8],
    to: usize,
) -> Turned
    requires { CountsSound f × Small edge_limit (box_of f.n b) × SomeTree f told table.now d (box_of f.n b) at }
    ensures { Turns f told table.now d (box_of f.n b) at buf.old to result buf.new }
{
    let Some((k, next)) = numbers::number(table, at) else {
        unreachable!();
    };
    if 0 < k {
        let behind = passed(k, table, next);
        let past = copy(table, at, behind, buf, to);
        return Turned { behind, to: past };
    }
    let count = boxes::count(f.form, f.n, b);
    let below = d - 1;
    let zero = numbers::put_number(buf, to, 0);
    let first = between(f, told, table, below, b, count, next, buf, zero);
    let mut place = first.behind;
    let mut past = first.to;
    for c in 0..count {
        let child = boxes::child(f.form, f.n, b, c);
        let kid = turn(f, told, table, below, child, place, buf, past);
        place = kid.behind;
        past = kid.to;
    }
    Turned {
        behind: place,
        to: past,
    }
}

// The table of a frame whose tree lies in `table` behind a form and n, as one of the form told, which lays the tree out the other way; the place behind it.
pub fn put_table(
    f: Frame,
    told: bool,
    form: usize,
    table: &[u8],
    buf: &mut [u8],
    at: usize,
) -> usize
    requires { FrameSound f × SomeTable f told table.now }
    ensures { TableTurned f told form table.now buf.old at result buf.new }
{
    let depth = frames::depth(f.form, f.n, f.d);
    let past_form = numbers::put_number(buf, at, form);
    let past_rooms = numbers::put_number(buf, past_form, f.n);
    let turned = turn(
        frames::counts_of(f),
        told,
        table,
        depth,
        f.root,
        2,
        buf,
        past_rooms,
    );
    turned.to
}

// How many bytes that table has, where the tree lies without lengths.
pub fn table_size(f: Frame, table: &[u8]) -> usize
    requires { FrameSound f × SomeTable f false table.now }
    ensures { TableSized f table.now result }
{
    let depth = frames::depth(f.form, f.n, f.d);
    let tree = sized(frames::counts_of(f), table, depth, f.root, 2);
    2 + tree.size
}

// That table as a writer leaves it: 10.
pub fn leave(
    f: Frame,
    told: bool,
    form: usize,
    table: &[u8],
    buf: &mut [u8],
) -> Result<usize, Refusal>
    requires { FrameSound f × SomeTable f told table.now }
    ensures { TableLeft f told form table.now buf.old result buf.new }
{
    let size = put_table(f, told, form, table, buf, 0);
    if buf.len() < size {
        return buffers::refuse(files::refusals::short(), buf);
    }
    Ok(size)
}
