// The checker of start files (document 02, request 2026-03): plant; the chain, with 15; then each table's length and the table, read within it; bytes left
// over last.
// Relies on crate files for the plant, on chains for the boxes, on parts and checks for a table. Leaves out how the tables are made.
ghost use Rattle.std.specs.Prelude.{◌≡◌, ◌+◌, ◌≤◌, pos, replicate};
ghost use Rattle.meaning.specs.Starts.{tables_at, start_checked};
ghost use Rattle.tables.specs.Arrays.{RoomFor, most_bands, most_coefficients};
ghost use Rattle.tables.specs.Chains.{FramesSound};
ghost use Rattle.tables.specs.Frames.{rules_by, ModesSound, PlantSound};
ghost use Rattle.tables.specs.StartChecks.{rules_at, table_at};

use crate::arrays::{FEW_BANDS, FEW_COEFFICIENTS, FEW_MODES};
use crate::chains::EDGES;
use crate::frames::Frame;
use crate::{chains, checks, frames, parts, refusals};
use files::plants;
use meaning::{BANDS, COEFFICIENTS, Refusal};

// The place behind the table whose length stands at `at`. What is told of the table is told at its place in the file.
fn table_at(
    f: Frame,
    bands: &[i64],
    coef: &[i64],
    start: &[u8],
    at: usize,
) -> Result<usize, Refusal>
    requires { PlantSound f bands.now coef.now }
    ensures { result ≡ table_at (rules_by f bands.now coef.now) start.now at }
{
    let (first, size) = parts::part_at(start, at)?;
    let end = first + size;
    match checks::table_end(f, bands, coef, &start[first..end]) {
        Err(e) => Err(refusals::moved(first, e)),
        Ok(next) => {
            if next == size {
                Ok(end)
            } else {
                Err(files::refusals::unfit(at))
            }
        }
    }
}

// The tables of R0..Rm, the first length at `at`, and nothing behind them.
fn tables_at<'a>(
    f: Frame,
    edges: &[i64; EDGES],
    bands: &'a [i64],
    coef: &'a [i64],
    start: &[u8],
    m: usize,
    at: usize,
) -> Result<(), Refusal>
    requires { FramesSound f edges.now m × ModesSound f.n f.modes f.q bands.now coef.now }
    ensures { result ≡ tables_at (rules_at f edges.now bands.now coef.now) start.now (m + 1) 0 at }
{
    let mut place = at;
    for i in 0..m + 1 {
        place = table_at(chains::frame_at(f, edges, i), bands, coef, start, place)?;
    }
    if place == start.len() {
        Ok(())
    } else {
        Err(files::refusals::unfit(place))
    }
}

// In arrays of these sizes, which have room for the plant. Never inlined, so that a plant of few modes takes no stack for one of many.
#[inline(never)]
fn start_check_in<const SIDES: usize, const ROWS: usize>(
    plant: &[u8],
    start: &[u8],
) -> Result<(), Refusal>
    requires room { RoomFor plant.now (replicate SIDES (pos 0)) (replicate ROWS (pos 0)) }
    requires small { (SIDES ≤ most_bands) × (ROWS ≤ most_coefficients) }
    ensures { result ≡ start_checked plant.now start.now }
{
    let mut bands = [0i64; SIDES];
    let mut coef = [0i64; ROWS];
    let outline = plants::read_plant(plant, &mut bands, &mut coef)?;
    let f = frames::framed(outline);
    let chain = chains::read_chain(f, false, start)?;
    tables_at(f, &chain.edges, &bands, &coef, start, chain.m, chain.next)
}

// The verdict on a start file for a plant's file: number, place and step of the first fault, or accepted.
pub fn start_check(plant: &[u8], start: &[u8]) -> Result<(), Refusal>
    ensures { result ≡ start_checked plant.now start.now }
{
    if FEW_MODES < plants::modes_told(plant) {
        return start_check_in::<BANDS, COEFFICIENTS>(plant, start);
    }
    start_check_in::<FEW_BANDS, FEW_COEFFICIENTS>(plant, start)
}
