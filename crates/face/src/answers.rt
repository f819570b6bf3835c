// The controller's answer as numbers, the way C takes them; and the start controller's. Relies on crates/meaning, page Refusals. Leaves out where it comes from.
ghost use Rattle.std.specs.Prelude.{◌≡◌};
ghost use Rattle.meaning.specs.Refusals.{answer_shown, start_answer_shown};
ghost use Rattle.face.specs.Answers.{mode, number_and_state, numbers_and_state};

use meaning::{Refusal, StartState, State};

// No mode: 255 is one.
const NO_MODE: u64 = 65_535;

// The mode of a controller's answer, NO_MODE where it is refused; out holds number, place and step of the refusal, then the next state.
pub fn answer(a: Result<(usize, State), Refusal>, out: &mut [u64; 5]) -> u64
    ensures mode { result ≡ mode (answer_shown a) }
    ensures state { out.new ≡ number_and_state (answer_shown a) }
{
    let Ok((u, next)) = a else {
        let Err(e) = a else { unreachable!() };
        *out = [e.number as u64, e.place as u64, e.step as u64, 0, 0];
        return NO_MODE;
    };
    *out = [0, 0, 0, next.place as u64, next.left as u64];
    u as u64
}

// The mode of a start controller's answer, NO_MODE where it is refused; out holds number, place and step of the refusal, then the next state.
pub fn start_answer(a: Result<(usize, StartState), Refusal>, out: &mut [u64; 6]) -> u64
    ensures mode { result ≡ mode (start_answer_shown a) }
    ensures state { out.new ≡ numbers_and_state (start_answer_shown a) }
{
    let Ok((u, next)) = a else {
        let Err(e) = a else { unreachable!() };
        *out = [e.number as u64, e.place as u64, e.step as u64, 0, 0, 0];
        return NO_MODE;
    };
    let s = next.state;
    *out = [0, 0, 0, next.index as u64, s.place as u64, s.left as u64];
    u as u64
}
