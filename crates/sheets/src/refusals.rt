// The rows of document 01's table of refusals that a sheet alone is refused by, each under the name of its definition. The rows that plants have too
// stand in crates/files.
ghost use Rattle.std.specs.Prelude.{◌≡◌};
ghost use Rattle.meaning.specs.Refusals as R;

use meaning::Refusal;

pub fn bad_float(at: usize) -> Refusal
    ensures { result ≡ R.bad_float at }
{
    Refusal {
        number: 13,
        place: at,
        step: 0,
    }
}

pub fn bad_result(place: usize) -> Refusal
    ensures { result ≡ R.bad_result place }
{
    Refusal {
        number: 14,
        place,
        step: 0,
    }
}
