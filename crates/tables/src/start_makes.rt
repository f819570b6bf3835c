// The start file's maker (document 02, request 2026-03): a chain of boxes with the table that is defined for each behind its length. It is written straight
// into the lent buffer, for 9 comes before 10: plant, chain, 15, 2 where the form that it is told for all is not known, 9 with the first index that has no
// table, 10.
// Relies on crate files for the plant, for numbers and for what a write leaves, on chains for the chain and each box's frame, on drafts for a table, on
// turns for the lengths that it tells. Leaves out whether the tables work: that is proved of the definition.
ghost use Rattle.std.specs.Prelude.{◌≡◌, ◌+◌, ◌≤◌, length, pos, replicate, true};
ghost use Rattle.meaning.specs.Boxes.{within};
ghost use Rattle.meaning.specs.Buffers.{left};
ghost use Rattle.meaning.specs.Starts.{start_left};
ghost use Rattle.tables.specs.Arrays.{RoomFor, most_bands, most_coefficients};
ghost use Rattle.tables.specs.Boxes.{box_of};
ghost use Rattle.tables.specs.Chains.{most_above};
ghost use Rattle.tables.specs.Drafts.{Wrote, bytes_most, most_draft};
ghost use Rattle.tables.specs.Frames.{rules_in, PlantSound};
ghost use Rattle.tables.specs.StartMakes.{part_bytes, WroteParts, frames_tables, FramesSound, behind_chain, chain_left};

use crate::arrays::{FEW_BANDS, FEW_COEFFICIENTS, FEW_MODES};
use crate::chains::EDGES;
use crate::drafts::{BRIEF, FEW, LONG, MOST};
use crate::frames::Frame;
use crate::{chains, drafts, frames, headers, refusals, turns};
use files::{buffers, numbers, plants};
use meaning::{BANDS, COEFFICIENTS, Refusal};

// A frame's table behind its length: drafted where there is room for it, then copied, with the lengths that form 2 tells.
fn put_part(
    f: Frame,
    bands: &[i64],
    coef: &[i64],
    draft: &mut [u8],
    buf: &mut [u8],
    at: usize,
) -> Option<usize>
    requires frame { PlantSound f bands.now coef.now }
    requires room { bytes_most f ≤ length draft.old }
    ensures { Wrote (part_bytes (rules_in f bands.now coef.now)) buf.old at result buf.new }
{
    let size = drafts::table(f, bands, coef, draft)?;
    if f.form == 2 {
        let long = turns::table_size(f, &draft[..size]);
        let behind = numbers::put_number(buf, at, long);
        let next = turns::put_table(f, false, f.form, &draft[..size], buf, behind);
        return Some(next);
    }
    let past_length = numbers::put_number(buf, at, size);
    Some(buffers::put_bytes(buf, past_length, &draft[..size]))
}

// The tables of R0..Rm, one draft for all; or 9 with the first index that has none.
fn put_parts(
    f: Frame,
    bands: &[i64],
    coef: &[i64],
    edges: &[i64; EDGES],
    m: usize,
    draft: &mut [u8],
    buf: &mut [u8],
    at: usize,
) -> Result<usize, Refusal>
    requires frames { (m ≤ most_above) × FramesSound f bands.now coef.now edges.now m }
    requires room { bytes_most f ≤ length draft.old }
    requires place { at ≤ length buf.old + 1 }
    ensures { WroteParts (frames_tables f bands.now coef.now edges.now m) buf.old at result buf.new }
{
    let mut place = at;
    for i in 0..m + 1 {
        let own = chains::frame_at(f, edges, i);
        place = put_part(own, bands, coef, draft, buf, place).ok_or(refusals::no_table(i))?;
    }
    Ok(place)
}

// The chain's bytes, then the tables, in a draft that has room for each: 9, 10. Finished, only the file's bytes are changed; refused, the buffer is all zeros.
// Never inlined, so that no call has room for another size of draft on its stack.
#[inline(never)]
fn write_start<const DRAFT: usize>(
    f: Frame,
    bands: &[i64],
    coef: &[i64],
    edges: &[i64; EDGES],
    m: usize,
    chain: &[u8],
    buf: &mut [u8],
) -> Result<usize, Refusal>
    requires frames { (m ≤ most_above) × FramesSound f bands.now coef.now edges.now m }
    requires room { bytes_most f ≤ DRAFT }
    requires small { DRAFT ≤ most_draft }
    ensures answer { result ≡ (left (behind_chain chain.now (frames_tables f bands.now coef.now edges.now m)) buf.old).answer }
    ensures bytes { buf.new ≡ (left (behind_chain chain.now (frames_tables f bands.now coef.now edges.now m)) buf.old).buffer }
{
    let mut draft = [0u8; DRAFT];
    let past_chain = buffers::put_bytes(buf, 0, chain);
    match put_parts(f, bands, coef, edges, m, &mut draft, buf, past_chain) {
        Err(e) => buffers::refuse(e, buf),
        Ok(size) => {
            if buf.len() < size {
                return buffers::refuse(files::refusals::short(), buf);
            }
            Ok(size)
        }
    }
}

// The chain's bytes, then the tables, in the smallest draft that is sure to have room.
fn write_start_own(
    f: Frame,
    bands: &[i64],
    coef: &[i64],
    edges: &[i64; EDGES],
    m: usize,
    chain: &[u8],
    buf: &mut [u8],
) -> Result<usize, Refusal>
    requires { (m ≤ most_above) × FramesSound f bands.now coef.now edges.now m }
    ensures answer { result ≡ (left (behind_chain chain.now (frames_tables f bands.now coef.now edges.now m)) buf.old).answer }
    ensures bytes { buf.new ≡ (left (behind_chain chain.now (frames_tables f bands.now coef.now edges.now m)) buf.old).buffer }
{
    if BRIEF < f.modes {
        return write_start::<MOST>(f, bands, coef, edges, m, chain, buf);
    }
    if f.n * f.d <= 4 {
        return write_start::<FEW>(f, bands, coef, edges, m, chain, buf);
    }
    write_start::<LONG>(f, bands, coef, edges, m, chain, buf)
}

// For a frame: chain, 15, 2, 9, 10.
fn make_start(
    f: Frame,
    bands: &[i64],
    coef: &[i64],
    chain: &[u8],
    form: usize,
    buf: &mut [u8],
) -> Result<usize, Refusal>
    requires frame { PlantSound f bands.now coef.now }
    requires root { within (box_of f.n f.root) (box_of f.n f.safe) ≡ true }
    ensures answer { result ≡ (chain_left f bands.now coef.now chain.now form buf.old).answer }
    ensures bytes { buf.new ≡ (chain_left f bands.now coef.now chain.now form buf.old).buffer }
{
    match chains::read_chain(f, true, chain) {
        Err(e) => buffers::refuse(e, buf),
        Ok(read) => {
            if headers::known(form) {
                let own = frames::formed(f, form);
                return write_start_own(own, bands, coef, &read.edges, read.m, chain, buf);
            }
            buffers::refuse(files::refusals::wrong_form(), buf)
        }
    }
}

// The start file for a plant's file and a chain's, the plant being read into arrays that have room for it. Never inlined, as above.
#[inline(never)]
fn start_make_in<const SIDES: usize, const ROWS: usize>(
    plant: &[u8],
    chain: &[u8],
    form: usize,
    buf: &mut [u8],
) -> Result<usize, Refusal>
    requires room { RoomFor plant.now (replicate SIDES (pos 0)) (replicate ROWS (pos 0)) }
    requires small { (SIDES ≤ most_bands) × (ROWS ≤ most_coefficients) }
    ensures answer { result ≡ (start_left plant.now chain.now form buf.old).answer }
    ensures bytes { buf.new ≡ (start_left plant.now chain.now form buf.old).buffer }
{
    let mut bands = [0i64; SIDES];
    let mut coef = [0i64; ROWS];
    match plants::read_plant(plant, &mut bands, &mut coef) {
        Err(e) => buffers::refuse(e, buf),
        Ok(outline) => make_start(frames::framed(outline), &bands, &coef, chain, form, buf),
    }
}

// The start file for a plant's file and a chain's, its tables of one form: plant, chain, 15, 2 where the form is not known, 9, 10.
pub fn start_make(plant: &[u8], chain: &[u8], form: usize, buf: &mut [u8]) -> Result<usize, Refusal>
    ensures answer { result ≡ (start_left plant.now chain.now form buf.old).answer }
    ensures bytes { buf.new ≡ (start_left plant.now chain.now form buf.old).buffer }
{
    if FEW_MODES < plants::modes_told(plant) {
        return start_make_in::<BANDS, COEFFICIENTS>(plant, chain, form, buf);
    }
    start_make_in::<FEW_BANDS, FEW_COEFFICIENTS>(plant, chain, form, buf)
}
