// The controller's call (document 01, "The controller"): plant, table header, 12, 11, then the tree, in that order.
// Relies on crate files for the plant, on headers, states and boxes for the tests, on finds for the tile. Leaves out how the state is kept between
// calls.
// A refused call has no state to go on with: the answer carries one only beside a mode. No call makes an image, so none is lent bands or coefficients.
ghost use Rattle.std.specs.Prelude.{◌≡◌, [], ◌≤◌};
ghost use Rattle.meaning.specs.Boxes.{fits};
ghost use Rattle.meaning.specs.Control.{idle_call, running_call, call};
ghost use Rattle.meaning.specs.Tables.{reading_of, form_of, controlled};
ghost use Rattle.tables.specs.Boxes.{box_of};
ghost use Rattle.tables.specs.Frames.{rules_in, rules_by, FrameSound};
ghost use Rattle.tables.specs.Control.{admission};

use crate::frames::Frame;
use crate::{boxes, finds, frames, headers, refusals, states};
use files::bounds::Sides;
use files::plants;
use meaning::{Refusal, State};

// Whether a call may go on: the state can be, and then the box holds the reading; 12 before 11.
pub(crate) fn admit(can: bool, n: usize, b: Sides, x: [i64; 4]) -> Result<(), Refusal>
    requires { n ≤ 4 }
    ensures { result ≡ admission can (fits (box_of n b) (reading_of n x)) }
{
    if !can {
        return Err(refusals::bad_state());
    }
    let missed = boxes::missed(n, b, x);
    if missed < n {
        return Err(refusals::outside(missed));
    }
    Ok(())
}

// Idle: the reading must be in R; its tile is found, its first mode answered.
fn idle_call(
    f: Frame,
    table: &[u8],
    at: usize,
    place: usize,
    x: [i64; 4],
) -> Result<(usize, State), Refusal>
    requires { FrameSound f }
    ensures { result ≡ idle_call (rules_in f [] []) table.now at place x }
{
    admit(place == 0, f.n, f.root, x)?;
    let depth = frames::depth(f.form, f.n, f.d);
    let edges = frames::edges_of(f);
    let (from, k) = finds::find(frames::counts_of(f), &edges, table, depth, at, f.root, x)?;
    states::answer(table, from, k)
}

// Running: the reading must be in S; the mode at the place is answered.
fn running_call(
    f: Frame,
    table: &[u8],
    place: usize,
    left: usize,
    x: [i64; 4],
) -> Result<(usize, State), Refusal>
    requires { FrameSound f }
    ensures { result ≡ running_call (rules_in f [] []) table.now place left x }
{
    let can = states::can_run(f.k, f.modes, table, place, left);
    admit(can, f.n, f.safe, x)?;
    states::answer(table, place, left)
}

// A call on a plant that was read, by the form that the table says. A running call hangs on no form.
pub(crate) fn call(
    f: Frame,
    table: &[u8],
    st: State,
    x: [i64; 4],
) -> Result<(usize, State), Refusal>
    requires { FrameSound f }
    ensures { result ≡ call (rules_by f [] [] (form_of table.now)) table.now st x }
{
    let form = headers::form_of(table);
    let at = headers::header(form, f.n, table)?;
    if st.left == 0 {
        idle_call(frames::formed(f, form), table, at, st.place, x)
    } else {
        running_call(f, table, st.place, st.left, x)
    }
}

// What the controller answers to a reading, for every plant, table, state and reading. Numbers of the reading beyond n are ignored.
pub fn control(
    plant: &[u8],
    table: &[u8],
    st: State,
    x: [i64; 4],
) -> Result<(usize, State), Refusal>
    ensures { result ≡ controlled plant.now table.now st x }
{
    let outline = plants::judge_plant(plant)?;
    call(frames::framed(outline), table, st, x)
}
