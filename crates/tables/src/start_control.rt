// The controller of start files (document 02, request 2026-03): plant; the chain, with 15; the index, 12; 11 where idle; the lengths up to the table; then
// the call on that table, as for a table by itself.
// Relies on crate files for the plant, on chains and boxes for the table that is called, on parts for its place, on control for the call. Leaves out how the
// state is kept between calls.
// A refused call has no state to go on with: the answer carries one only beside a mode.
ghost use Rattle.std.specs.Prelude.{◌≡◌, ◌≤◌};
ghost use Rattle.meaning.specs.Starts.{chosen, is_idle, state_in, start_controlled};
ghost use Rattle.tables.specs.Boxes.{box_of};
ghost use Rattle.tables.specs.Chains.{most_above, values_in, FramesSound};
ghost use Rattle.tables.specs.Frames.{FrameSound};
ghost use Rattle.tables.specs.StartControl.{idle_choice, choice_of, call_behind, start_answer};

use crate::chains::EDGES;
use crate::frames::Frame;
use crate::{boxes, chains, control, frames, parts, refusals};
use files::bounds::Sides;
use files::plants;
use meaning::{Refusal, StartState, State};

// No mode is left and no place kept.
fn is_idle(st: State) -> bool
    ensures { result ≡ is_idle st }
{
    st.place == 0 && st.left == 0
}

// The lowest index of the boxes that hold a reading; m + 1 where none does.
fn lowest(n: usize, root: Sides, edges: &[i64; EDGES], m: usize, x: [i64; 4]) -> usize
    requires { (n ≤ 4) × (m ≤ most_above) }
    ensures { result ≡ chosen n (box_of n root) (values_in m edges.now) x }
{
    for i in 0..m + 1 {
        let b = chains::box_at(n, root, edges, i);
        if n <= boxes::missed(n, b, x) {
            return i;
        }
    }
    m + 1
}

// Idle: no index may be kept, and the reading must be in Rm; of the boxes that hold it the lowest index.
fn idle_choice(
    n: usize,
    root: Sides,
    edges: &[i64; EDGES],
    m: usize,
    i: usize,
    x: [i64; 4],
) -> Result<usize, Refusal>
    requires { (n ≤ 4) × (m ≤ most_above) }
    ensures { result ≡ idle_choice n (box_of n root) (values_in m edges.now) i x }
{
    let top = chains::box_at(n, root, edges, m);
    control::admit(i == 0, n, top, x)?;
    Ok(lowest(n, root, edges, m, x))
}

// The table that a state and a reading call: an index over m cannot be.
fn choose_table(
    n: usize,
    root: Sides,
    edges: &[i64; EDGES],
    m: usize,
    st: StartState,
    x: [i64; 4],
) -> Result<usize, Refusal>
    requires { (n ≤ 4) × (m ≤ most_above) }
    ensures { result ≡ choice_of n (box_of n root) (values_in m edges.now) st x }
{
    if m < st.index {
        return Err(refusals::bad_state());
    }
    if is_idle(st.state) {
        return idle_choice(n, root, edges, m, st.index, x);
    }
    Ok(st.index)
}

// The state of a table as that of the file: behind the last mode the index goes too.
fn state_in(i: usize, st: State) -> StartState
    ensures { result ≡ state_in i st }
{
    StartState {
        index: if is_idle(st) { 0 } else { i },
        state: st,
    }
}

// The call on table i, the first length being at `at`. What is told of the table is told at its place in the file.
fn call_behind(
    f: Frame,
    start: &[u8],
    at: usize,
    i: usize,
    st: State,
    x: [i64; 4],
) -> Result<(usize, StartState), Refusal>
    requires { FrameSound f }
    ensures { result ≡ call_behind f start.now at i st x }
{
    let (first, size) = parts::part_behind(i, start, at)?;
    let end = first + size;
    match control::call(f, &start[first..end], st, x) {
        Err(e) => Err(refusals::moved(first, e)),
        Ok((u, then)) => Ok((u, state_in(i, then))),
    }
}

// A call on a chain that was read.
fn start_call(
    f: Frame,
    edges: &[i64; EDGES],
    start: &[u8],
    m: usize,
    at: usize,
    st: StartState,
    x: [i64; 4],
) -> Result<(usize, StartState), Refusal>
    requires { FramesSound f edges.now m }
    ensures { result ≡ start_answer f edges.now start.now m at st x }
{
    let i = choose_table(f.n, f.root, edges, m, st, x)?;
    call_behind(chains::frame_at(f, edges, i), start, at, i, st.state, x)
}

// What the controller answers to a reading, for every plant, start file, state and reading. Numbers of the reading beyond n are ignored.
pub fn start_control(
    plant: &[u8],
    start: &[u8],
    st: StartState,
    x: [i64; 4],
) -> Result<(usize, StartState), Refusal>
    ensures { result ≡ start_controlled plant.now start.now st x }
{
    let outline = plants::judge_plant(plant)?;
    let f = frames::framed(outline);
    let chain = chains::read_chain(f, false, start)?;
    start_call(f, &chain.edges, start, chain.m, chain.next, st, x)
}
