// The rows of document 01's table of refusals that a table is refused by, each under the name of its definition.
// Relies on nothing. Leaves out the rows that every file has (crate files, module refusals).
ghost use Rattle.std.specs.Prelude.{◌≡◌};
ghost use Rattle.meaning.specs.Refusals as R;
ghost use Rattle.tables.specs.Parts.{Movable};

use meaning::Refusal;

pub fn bad_table(at: usize) -> Refusal
    ensures { result ≡ R.bad_table at }
{
    Refusal {
        number: 6,
        place: at,
        step: 0,
    }
}

pub fn leaves(at: usize, i: usize) -> Refusal
    ensures { result ≡ R.leaves at i }
{
    Refusal {
        number: 7,
        place: at,
        step: i,
    }
}

pub fn misses(at: usize, i: usize) -> Refusal
    ensures { result ≡ R.misses at i }
{
    Refusal {
        number: 8,
        place: at,
        step: i,
    }
}

pub fn outside(i: usize) -> Refusal
    ensures { result ≡ R.outside i }
{
    Refusal {
        number: 11,
        place: i,
        step: 0,
    }
}

pub fn bad_state() -> Refusal
    ensures { result ≡ R.bad_state }
{
    Refusal {
        number: 12,
        place: 0,
        step: 0,
    }
}

pub fn no_table(i: usize) -> Refusal
    ensures { result ≡ R.no_table i }
{
    Refusal {
        number: 9,
        place: i,
        step: 0,
    }
}

pub fn not_held(i: usize) -> Refusal
    ensures { result ≡ R.not_held i }
{
    Refusal {
        number: 15,
        place: i,
        step: 0,
    }
}

// Whether a refusal's place is a byte of the file.
fn at_byte(number: u8) -> bool
    ensures { result ≡ R.at_byte number }
{
    matches!(number, 1 | 2 | 3 | 6 | 7 | 8 | 13)
}

// What is told of a file that stands at `from` in another.
pub fn moved(from: usize, e: Refusal) -> Refusal
    requires { Movable from e }
    ensures { result ≡ R.moved from e }
{
    if at_byte(e.number) {
        return Refusal {
            place: from + e.place,
            ..e
        };
    }
    e
}
