// An accepted table as one of another form (document 02, request 2026-01): forms 1 and 2 are turned into each other, and any table into its own form.
// Plant, all that the checker says of the table, 2, 10.
// Relies on checks for the verdict, on turns for the bytes, on crate files for the plant and for what a write leaves. Leaves out whether the two tables
// are run alike: that is proved of the definition.
ghost use Rattle.std.specs.Prelude.{◌≡◌, ◌&&◌};
ghost use Rattle.meaning.specs.Relays.{splits_alike, relay_left};
ghost use Rattle.meaning.specs.Tables.{known_form};
ghost use Rattle.promises.specs.Tables.Checked.{Tiled};

use crate::{checks, frames, headers, turns};
use files::{buffers, plants};
use meaning::Refusal;

// Whether the tree of a table of the one form is one of the other: form 3 halves one side at a time, the others all at once.
fn turns_into(own: usize, form: usize) -> bool
    ensures { result ≡ (known_form form && splits_alike own form) }
{
    headers::known(form) && (own == 3) == (form == 3)
}

// A table that was accepted. Of its own form it is copied, since only the other layout is written from a tree's bytes; the plant is read again, for its
// outline alone, the checker having kept nothing.
fn lay(plant: &[u8], table: &[u8], form: usize, buf: &mut [u8]) -> Result<usize, Refusal>
    requires { Tiled plant.now table.now }
    ensures answer { result ≡ (relay_left plant.now table.now form buf.old).answer }
    ensures bytes { buf.new ≡ (relay_left plant.now table.now form buf.old).buffer }
{
    let own = headers::form_of(table);
    if form == own {
        return buffers::leave(Ok(()), table, buf);
    }
    if turns_into(own, form) {
        let Ok(outline) = plants::judge_plant(plant) else {
            unreachable!();
        };
        let f = frames::formed(frames::framed(outline), own);
        return turns::leave(f, own == 2, form, table, buf);
    }
    buffers::refuse(files::refusals::wrong_form(), buf)
}

// The file of the form told for a plant's file and a table's file. Finished, only the table's bytes are changed; refused, the buffer is all zeros.
pub fn relay(plant: &[u8], table: &[u8], form: usize, buf: &mut [u8]) -> Result<usize, Refusal>
    ensures answer { result ≡ (relay_left plant.now table.now form buf.old).answer }
    ensures bytes { buf.new ≡ (relay_left plant.now table.now form buf.old).buffer }
{
    match checks::check(plant, table) {
        Err(e) => buffers::refuse(e, buf),
        Ok(()) => lay(plant, table, form, buf),
    }
}
