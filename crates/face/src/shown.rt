// Verdicts and what a writer answers as numbers, the way C takes them. Relies on crates/meaning, page Refusals. Leaves out where they come from, and the
// controller (answers).
ghost use Rattle.std.specs.Prelude.{◌≡◌};
ghost use Rattle.meaning.specs.Answers.{verdict_in};
ghost use Rattle.meaning.specs.Refusals.{verdict_shown, written_shown};
ghost use Rattle.face.specs.Shown.{place_and_step, length_or_place};

use meaning::Refusal;

// The number of a verdict, 0 of whatever was read; out holds place and step.
pub fn verdict<T: Copy>(v: Result<T, Refusal>, out: &mut [u64; 2]) -> u64
    ensures number { result ≡ (verdict_shown (verdict_in v)).number }
    ensures place { out.new ≡ place_and_step (verdict_shown (verdict_in v)) }
{
    match v {
        Ok(_) => {
            *out = [0, 0];
            0
        }
        Err(e) => {
            *out = [e.place as u64, e.step as u64];
            e.number as u64
        }
    }
}

// The number of a writer's answer; out holds the length written, or place and step.
pub fn written(w: Result<usize, Refusal>, out: &mut [u64; 2]) -> u64
    ensures number { result ≡ (written_shown w).number }
    ensures length { out.new ≡ length_or_place w }
{
    match w {
        Ok(m) => {
            *out = [m as u64, 0];
            0
        }
        Err(_) => verdict(w, out),
    }
}
