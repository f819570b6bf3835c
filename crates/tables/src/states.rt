// The controller between two calls (document 01, "The controller" and row 12): whether a running state can be, and the mode that a place answers.
// Relies on crate files for numbers, on modes for those that are left, and on crates/meaning for what a state is. Leaves out the reading, and an idle state.
ghost use Rattle.std.specs.Prelude.{◌≡◌, ◌≤◌};
ghost use Rattle.meaning.specs.Control.{can_run, mode_at};

use crate::{modes, refusals};
use files::numbers;
use meaning::{Refusal, State};

// Whether `left` modes, at most k, stand in the table from `place` on behind its header, each a mode: all of them are read, as those of a tile are.
pub fn can_run(k: usize, modes: usize, table: &[u8], place: usize, left: usize) -> bool
    requires { k ≤ 6 }
    ensures { result ≡ can_run k modes table.now place left }
{
    left <= k && 2 <= place && modes::read_modes(modes, left, table, place).is_ok()
}

// The mode at a place with that many left, itself counted, and the state behind it: at the number that follows, or idle behind the last. That none is
// left does not occur: a tile has modes, and a running state has some left.
pub fn answer(table: &[u8], place: usize, left: usize) -> Result<(usize, State), Refusal>
    ensures { result ≡ mode_at table.now place left }
{
    if left == 0 {
        return Err(refusals::bad_state());
    }
    let (u, next) = numbers::number(table, place).ok_or(refusals::bad_state())?;
    if left == 1 {
        return Ok((u, State { place: 0, left: 0 }));
    }
    Ok((
        u,
        State {
            place: next,
            left: left - 1,
        },
    ))
}
