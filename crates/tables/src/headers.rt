// The header of a table's file (document 01, "Table file"): form, then n; and the forms that are known (document 02, requests 2026-01 and 2026-06).
// Relies on crate files for numbers. Leaves out the tree behind it. Private to the crate: checker and controller read it.
ghost use Rattle.std.specs.Prelude.{◌≡◌};
ghost use Rattle.meaning.specs.Tables.{known_form, form_of};
ghost use Rattle.meaning.specs.Verdicts.{header};

use crate::refusals;
use files::numbers;
use meaning::Refusal;

// 1 halves all long sides at once, 2 too and tells lengths, 3 the longest alone.
pub fn known(form: usize) -> bool
    ensures { result ≡ known_form form }
{
    matches!(form, 1..=3)
}

// The form that a table says, by which it is judged and run; 1 where it says none that is known, which its header then refuses.
pub fn form_of(table: &[u8]) -> usize
    ensures { result ≡ form_of table.now }
{
    let Some((form, _)) = numbers::number(table, 0) else {
        return 1;
    };
    if known(form) { form } else { 1 }
}

// The place behind the header of a table of this form for n dimensions.
#[tactic(auto, unfolding(meaning::specs::Verdicts::header))]
pub fn header(form: usize, n: usize, table: &[u8]) -> Result<usize, Refusal>
    ensures { result ≡ header form n table.now }
{
    let (told, at) = numbers::number(table, 0).ok_or(files::refusals::broken(0))?;
    if told != form {
        return Err(files::refusals::wrong_form());
    }
    let (m, next) = numbers::number(table, at).ok_or(files::refusals::broken(at))?;
    if m != n {
        return Err(refusals::bad_table(at));
    }
    Ok(next)
}
