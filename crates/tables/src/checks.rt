// The checker (document 01, "Table file" and the order of judgement): plant, then the table in order, one pass; leftover bytes last.
// Relies on crate files for the plant, on headers and walks for the table's parts. Leaves out how a table is made, and whether it is the defined
// one: any table whose tiles work is accepted.
ghost use Rattle.std.specs.Prelude.{◌≡◌, ◌≤◌, pos, replicate};
ghost use Rattle.meaning.specs.Tables.{form_of, checked};
ghost use Rattle.meaning.specs.Verdicts.{table_end, verdict};
ghost use Rattle.tables.specs.Arrays.{RoomFor, most_bands, most_coefficients};
ghost use Rattle.tables.specs.Frames.{rules_in, rules_by, PlantSound};

use crate::arrays::{FEW_BANDS, FEW_COEFFICIENTS, FEW_MODES};
use crate::frames::Frame;
use crate::{frames, headers, refusals, walks};
use files::plants;
use meaning::{BANDS, COEFFICIENTS, Refusal};

// The place behind a table, its header and its tree, against a frame. What may stand there is not asked.
fn end_by(f: Frame, bands: &[i64], coef: &[i64], table: &[u8]) -> Result<usize, Refusal>
    requires { PlantSound f bands.now coef.now }
    ensures { result ≡ table_end (rules_in f bands.now coef.now) table.now }
{
    let at = headers::header(f.form, f.n, table)?;
    let depth = frames::depth(f.form, f.n, f.d);
    let edges = frames::edges_of(f);
    let counts = frames::counts_of(f);
    // A form that tells lengths and those that tell none have a walk each.
    if f.form == 2 {
        walks::walk_told(counts, &edges, bands, coef, true, table, depth, at, f.root)
    } else {
        walks::walk(counts, &edges, bands, coef, true, table, depth, at, f.root)
    }
}

// By the form that the table says.
pub(crate) fn table_end(
    f: Frame,
    bands: &[i64],
    coef: &[i64],
    table: &[u8],
) -> Result<usize, Refusal>
    requires { PlantSound f bands.now coef.now }
    ensures { result ≡ table_end (rules_by f bands.now coef.now (form_of table.now)) table.now }
{
    end_by(
        frames::formed(f, headers::form_of(table)),
        bands,
        coef,
        table,
    )
}

// A table against a frame: it has to end where its bytes do.
#[tactic(auto, unfolding(meaning::specs::Verdicts::verdict))]
fn judge<'a>(f: Frame, bands: &'a [i64], coef: &'a [i64], table: &[u8]) -> Result<(), Refusal>
    requires { PlantSound f bands.now coef.now }
    ensures { result ≡ verdict (rules_by f bands.now coef.now (form_of table.now)) table.now }
{
    let next = table_end(f, bands, coef, table)?;
    if next == table.len() {
        Ok(())
    } else {
        Err(refusals::bad_table(next))
    }
}

// In arrays of these sizes, which have room for the plant. Never inlined, so that a plant of few modes takes no stack for one of many.
#[inline(never)]
fn check_in<const SIDES: usize, const ROWS: usize>(
    plant: &[u8],
    table: &[u8],
) -> Result<(), Refusal>
    requires room { RoomFor plant.now (replicate SIDES (pos 0)) (replicate ROWS (pos 0)) }
    requires small { (SIDES ≤ most_bands) × (ROWS ≤ most_coefficients) }
    ensures { result ≡ checked plant.now table.now }
{
    let mut bands = [0i64; SIDES];
    let mut coef = [0i64; ROWS];
    let outline = plants::read_plant(plant, &mut bands, &mut coef)?;
    judge(frames::framed(outline), &bands, &coef, table)
}

// The verdict on a table's file for a plant's file: number, place and step of the first fault, or accepted.
pub fn check(plant: &[u8], table: &[u8]) -> Result<(), Refusal>
    ensures { result ≡ checked plant.now table.now }
{
    if FEW_MODES < plants::modes_told(plant) {
        return check_in::<BANDS, COEFFICIENTS>(plant, table);
    }
    check_in::<FEW_BANDS, FEW_COEFFICIENTS>(plant, table)
}
