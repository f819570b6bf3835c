// The maker (document 01, "The defined table"): the table that is defined for a plant, of the form that it is told. It is drafted in an array of its own,
// and the lent buffer is touched once: plant, 2, 9, 10.
// Relies on crate files for the plant and for what a write leaves, on drafts for the table, on turns for the lengths that it tells. Leaves out whether the
// table works: that is proved of the definition.
ghost use Rattle.std.specs.Prelude.{◌≡◌, ◌≤◌, pos, replicate};
ghost use Rattle.meaning.specs.Tables.{maker_left};
ghost use Rattle.tables.specs.Arrays.{RoomFor, most_bands, most_coefficients};
ghost use Rattle.tables.specs.Drafts.{bytes_most, most_draft};
ghost use Rattle.tables.specs.Frames.{rules_in, PlantSound};
ghost use Rattle.tables.specs.Makes.{defined_left};

use crate::arrays::{FEW_BANDS, FEW_COEFFICIENTS, FEW_MODES};
use crate::drafts::{BRIEF, FEW, LONG, MOST};
use crate::frames::Frame;
use crate::{drafts, frames, headers, refusals, turns};
use files::{buffers, plants};
use meaning::{BANDS, COEFFICIENTS, Refusal};

// The table of a frame, drafted in an array that has room for it, and written, with the lengths that form 2 tells: 9, 10. Finished, only the table's bytes are
// changed; refused, the buffer is all zeros. Never inlined, so that no call has room for another size of draft on its stack.
#[inline(never)]
fn write_table<const DRAFT: usize>(
    f: Frame,
    bands: &[i64],
    coef: &[i64],
    buf: &mut [u8],
) -> Result<usize, Refusal>
    requires frame { PlantSound f bands.now coef.now }
    requires room { bytes_most f ≤ DRAFT }
    requires small { DRAFT ≤ most_draft }
    ensures answer { result ≡ (defined_left (rules_in f bands.now coef.now) buf.old).answer }
    ensures bytes { buf.new ≡ (defined_left (rules_in f bands.now coef.now) buf.old).buffer }
{
    let mut draft = [0u8; DRAFT];
    let Some(length) = drafts::table(f, bands, coef, &mut draft) else {
        return buffers::refuse(refusals::no_table(0), buf);
    };
    if f.form == 2 {
        return turns::leave(f, false, f.form, &draft[..length], buf);
    }
    buffers::leave(Ok(()), &draft[..length], buf)
}

// In the smallest draft that is sure to have room.
fn write_own(f: Frame, bands: &[i64], coef: &[i64], buf: &mut [u8]) -> Result<usize, Refusal>
    requires { PlantSound f bands.now coef.now }
    ensures answer { result ≡ (defined_left (rules_in f bands.now coef.now) buf.old).answer }
    ensures bytes { buf.new ≡ (defined_left (rules_in f bands.now coef.now) buf.old).buffer }
{
    if BRIEF < f.modes {
        return write_table::<MOST>(f, bands, coef, buf);
    }
    if f.n * f.d <= 4 {
        return write_table::<FEW>(f, bands, coef, buf);
    }
    write_table::<LONG>(f, bands, coef, buf)
}

// The table's file for a plant's file, the plant being read into arrays that have room for it. Never inlined, as above.
#[inline(never)]
fn make_in<const SIDES: usize, const ROWS: usize>(
    plant: &[u8],
    form: usize,
    buf: &mut [u8],
) -> Result<usize, Refusal>
    requires room { RoomFor plant.now (replicate SIDES (pos 0)) (replicate ROWS (pos 0)) }
    requires small { (SIDES ≤ most_bands) × (ROWS ≤ most_coefficients) }
    ensures answer { result ≡ (maker_left plant.now form buf.old).answer }
    ensures bytes { buf.new ≡ (maker_left plant.now form buf.old).buffer }
{
    let mut bands = [0i64; SIDES];
    let mut coef = [0i64; ROWS];
    match plants::read_plant(plant, &mut bands, &mut coef) {
        Err(e) => buffers::refuse(e, buf),
        Ok(outline) => {
            if headers::known(form) {
                let f = frames::formed(frames::framed(outline), form);
                return write_own(f, &bands, &coef, buf);
            }
            buffers::refuse(files::refusals::wrong_form(), buf)
        }
    }
}

// The table's file for a plant's file: plant, 2 where the form is not known, 9, 10.
pub fn make(plant: &[u8], form: usize, buf: &mut [u8]) -> Result<usize, Refusal>
    ensures answer { result ≡ (maker_left plant.now form buf.old).answer }
    ensures bytes { buf.new ≡ (maker_left plant.now form buf.old).buffer }
{
    if FEW_MODES < plants::modes_told(plant) {
        return make_in::<BANDS, COEFFICIENTS>(plant, form, buf);
    }
    make_in::<FEW_BANDS, FEW_COEFFICIENTS>(plant, form, buf)
}
