// The rows of the table of refusals that a file is refused by, each under the name of its definition.
ghost use Rattle.std.specs.Prelude.{◌≡◌};
ghost use Rattle.meaning.specs.Refusals as R;

use meaning::Refusal;

pub fn broken(at: usize) -> Refusal
    ensures { result ≡ R.broken at }
{
    Refusal {
        number: 1,
        place: at,
        step: 0,
    }
}

pub fn wrong_form() -> Refusal
    ensures { result ≡ R.wrong_form }
{
    Refusal {
        number: 2,
        place: 0,
        step: 0,
    }
}

pub fn unfit(at: usize) -> Refusal
    ensures { result ≡ R.unfit at }
{
    Refusal {
        number: 3,
        place: at,
        step: 0,
    }
}

pub fn not_in_safe(i: usize) -> Refusal
    ensures { result ≡ R.not_in_safe i }
{
    Refusal {
        number: 4,
        place: i,
        step: 0,
    }
}

pub fn narrow(u: usize, i: usize) -> Refusal
    ensures { result ≡ R.narrow u i }
{
    Refusal {
        number: 5,
        place: u,
        step: i,
    }
}

pub fn short() -> Refusal
    ensures { result ≡ R.short }
{
    Refusal {
        number: 10,
        place: 0,
        step: 0,
    }
}
