// The modes of a tile in a table's file (document 01, "Table file"): k numbers, each below N.
// Relies on crate files for numbers. Leaves out the tile's own number before them and what the modes do. Private to the crate: checker and
// controller read them.
ghost use Rattle.std.specs.Prelude.{◌≡◌, ◌≤◌};
ghost use Rattle.meaning.specs.Verdicts.{modes_at};
ghost use Rattle.tables.specs.Modes.{read_of};

use crate::refusals;
use files::numbers;
use meaning::Refusal;

// The k modes at `at`, each below `modes`, in front of zeros, and the place behind them.
pub fn read_modes(
    modes: usize,
    k: usize,
    table: &[u8],
    at: usize,
) -> Result<([usize; 6], usize), Refusal>
    requires { k ≤ 6 }
    ensures { read_of k result ≡ modes_at modes k table.now at }
{
    let mut us = [0usize; 6];
    let mut w = at;
    for i in 0..k {
        let (u, next) = numbers::number(table, w).ok_or(files::refusals::broken(w))?;
        if modes <= u {
            return Err(refusals::bad_table(w));
        }
        us[i] = u;
        w = next;
    }
    Ok((us, w))
}
