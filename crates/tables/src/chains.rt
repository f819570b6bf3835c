// The chain of boxes that a start file begins with (document 02, request 2026-03): form 1, m, the edges of R1..Rm, then 15; and the boxes and frames
// taken out of it. The maker's chain is the same with nothing behind it.
// Relies on crate files for numbers and spans, on boxes and frames. Leaves out the tables behind it.
ghost use Rattle.std.specs.Prelude.{◌≡◌, ◌&&◌, not, ◌≤◌, ◌<◌, eqb, pos, replicate};
ghost use Rattle.laws.specs.Lists.{tab, first_false};
ghost use Rattle.meaning.specs.Starts.{held};
ghost use Rattle.tables.specs.Boxes.{box_of};
ghost use Rattle.tables.specs.Chains.{most_above, most_edges, values_in, chain_read, box_on, bx_at, bx_below, frame_at, keeps, HeadTold, EdgesTold};

use crate::frames::Frame;
use crate::{boxes, refusals};
use files::bounds::Sides;
use files::{numbers, spans};
use meaning::Refusal;

// As many boxes above R, and as many of their edges, as there may be.
pub const ABOVE: usize = 8;

pub const EDGES: usize = 64;

// m, the place behind the chain, and the edges as they stand in the file: lo and hi of dimension j of the i-th box above R, from 0, at 2·(i·n + j), zeros
// behind.
#[derive(Clone, Copy)]
pub struct Chain {
    pub m: usize,
    pub next: usize,
    pub edges: [i64; EDGES],
}

// Form 1, then m: m and the place behind it.
fn read_head(s: &[u8]) -> Result<(usize, usize), Refusal>
    ensures { HeadTold s.now result }
{
    let (form, at) = numbers::number(s, 0).ok_or(files::refusals::broken(0))?;
    if form != 1 {
        return Err(files::refusals::wrong_form());
    }
    let (m, next) = numbers::number(s, at).ok_or(files::refusals::broken(at))?;
    if ABOVE < m {
        return Err(files::refusals::unfit(at));
    }
    Ok((m, next))
}

// `count` sides, lo and hi of each, into an array of zeros that is lent; the place behind them.
fn read_edges(s: &[u8], at: usize, count: usize, edges: &mut [i64; EDGES]) -> Result<usize, Refusal>
    requires { (count ≤ 32) × (edges.old ≡ replicate most_edges (pos 0)) }
    ensures { EdgesTold s.now at count edges.new result }
{
    let mut p = at;
    for i in 0..count {
        let (lo, hi, next) = spans::read_span(s, p, -1_000_000, 1_000_000)?;
        edges[2 * i] = lo;
        edges[2 * i + 1] = hi;
        p = next;
    }
    Ok(p)
}

// The i-th box above R, from 0.
fn box_on(n: usize, edges: &[i64; EDGES], i: usize) -> Sides
    requires { (n ≤ 4) × (i < most_above) }
    ensures { result ≡ box_on n edges.now i }
{
    let mut lo = [0i64; 4];
    let mut hi = [0i64; 4];
    let from = 2 * (i * n);
    for j in 0..n {
        lo[j] = edges[from + 2 * j];
        hi[j] = edges[from + 1 + 2 * j];
    }
    Sides { lo, hi }
}

// Ri, R being root.
pub fn box_at(n: usize, root: Sides, edges: &[i64; EDGES], i: usize) -> Sides
    requires { (n ≤ 4) × (i ≤ most_above) }
    ensures { result ≡ bx_at n root edges.now i }
{
    if i == 0 {
        return root;
    }
    box_on(n, edges, i - 1)
}

// The box that the patterns of Ri's table end in.
fn box_below(n: usize, root: Sides, edges: &[i64; EDGES], i: usize) -> Sides
    requires { (n ≤ 4) × (i ≤ most_above) }
    ensures { result ≡ bx_below n root edges.now i }
{
    if i == 0 {
        return root;
    }
    box_at(n, root, edges, i - 1)
}

// The frame of Ri's table: Ri is tiled, and patterns end in the box below it; R's own end in R.
pub fn frame_at(f: Frame, edges: &[i64; EDGES], i: usize) -> Frame
    requires { (f.n ≤ 4) × (i ≤ most_above) }
    ensures { result ≡ frame_at f edges.now i }
{
    Frame {
        root: box_at(f.n, f.root, edges, i),
        goal: box_below(f.n, f.root, edges, i),
        ..f
    }
}

// Whether a box holds the one below it and lies in S.
fn keeps(n: usize, below: Sides, b: Sides, safe: Sides) -> bool
    requires { n ≤ 4 }
    ensures { result ≡ keeps n below b safe }
{
    boxes::within(n, below, b) && boxes::within(n, b, safe)
}

// The first box above R, from 0, that does not hold the one below it or is not in S; m where there is none.
fn first_unheld(n: usize, root: Sides, safe: Sides, edges: &[i64; EDGES], m: usize) -> usize
    requires { (n ≤ 4) × (m ≤ most_above) }
    ensures { result ≡ first_false (tab (held n (box_of n root) (values_in m edges.now) (box_of n safe)) m 0) }
{
    let mut below = root;
    for i in 0..m {
        let b = box_on(n, edges, i);
        if !keeps(n, below, b, safe) {
            return i;
        }
        below = b;
    }
    m
}

// Whether bytes are left over that are to be told.
fn left_over(whole: bool, next: usize, size: usize) -> bool
    ensures { result ≡ (whole && not (eqb next size)) }
{
    whole && next != size
}

// The chain at a file's beginning; where it is the whole file, bytes left over are told before 15.
pub fn read_chain(f: Frame, whole: bool, s: &[u8]) -> Result<Chain, Refusal>
    requires { f.n ≤ 4 }
    ensures { result ≡ chain_read whole f s.now }
{
    let (m, at) = read_head(s)?;
    let mut edges = [0i64; EDGES];
    let next = read_edges(s, at, m * f.n, &mut edges)?;
    if left_over(whole, next, s.len()) {
        return Err(files::refusals::unfit(next));
    }
    let fault = first_unheld(f.n, f.root, f.safe, &edges, m);
    if fault < m {
        return Err(refusals::not_held(fault + 1));
    }
    Ok(Chain { m, next, edges })
}
