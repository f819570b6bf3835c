// Plant files of either form, read and written; and how many modes one says it has. Relies on beginnings and modes for the parts. Leaves out what a plant
// does: that is crates/tables.
ghost use Rattle.std.specs.Prelude.{◌≡◌, [], ◌∷◌, ◌+◌, ◌≤◌, length, unwrap_or};
ghost use Rattle.laws.specs.Lists as L;
ghost use Rattle.laws.specs.Writing.{Put};
ghost use Rattle.meaning.specs.Plants.{plant_judged, plant_read, bands_left, coef_left, plant_from, plant_left};
ghost use Rattle.files.specs.Plants.{modes_told, outline_in, ValuesTold, plant_draft};

use crate::beginnings::Beginning;
use crate::bounds::Sides;
use crate::{arrays, beginnings, buffers, modes, numbers, refusals};
use meaning::{MODES, Outline, Refusal};

// The writer's draft, ten bytes for each number, right or not: 6 in the header, 16 edges of four rooms, and for each mode 8 ends of bands and 20
// coefficients. Most plants have few modes, and a draft of theirs is small.
const FEW: usize = 16;

const FEW_DRAFT: usize = 10 * (22 + 28 * FEW);

const DRAFT: usize = 10 * (22 + 28 * MODES);

// How many modes a plant's file says it has, before it is judged; 0 where one of its first three numbers is broken.
pub fn modes_told(s: &[u8]) -> usize
    ensures { result ≡ modes_told s.now }
{
    third_number(s).unwrap_or(0)
}

// A file's third number.
fn third_number(s: &[u8]) -> Option<usize>
    ensures { unwrap_or result 0 ≡ modes_told s.now }
{
    let (_, a) = numbers::number(s, 0)?;
    let (_, b) = numbers::number(s, a)?;
    let (third, _) = numbers::number(s, b)?;
    Some(third)
}

// The outline of a plant that begins so.
fn outline(b: Beginning) -> Outline
    ensures { result ≡ outline_in b }
{
    let Sides { lo: rlo, hi: rhi } = b.root;
    let Sides { lo: slo, hi: shi } = b.safe;
    Outline {
        form: b.form,
        n: b.n,
        modes: b.m,
        q: b.q,
        k: b.k,
        d: b.d,
        rlo,
        rhi,
        slo,
        shi,
    }
}

// A plant's file, its bands and coefficients into the arrays as far as there is room; refused, these hold what was read before the fault.
fn read_values(s: &[u8], bands: &mut [i64], coef: &mut [i64]) -> Result<Outline, Refusal>
    ensures { ValuesTold (plant_judged s.now) bands.old coef.old bands.new coef.new result }
{
    let begun = beginnings::read_beginning(s, 2, MODES)?;
    let modes = modes::read_modes(s, begun, bands, coef)?;
    if modes.next != s.len() {
        return Err(refusals::unfit(modes.next));
    }
    modes.related?;
    Ok(outline(begun.beginning))
}

// A plant's file, judged in order: number, place and step of the first fault, or the plant. Its bands and coefficients are left in the arrays that are lent
// for them, as far as there is room, so who lends none has the plant judged alone. Refused, the arrays are all zeros.
pub fn read_plant(s: &[u8], bands: &mut [i64], coef: &mut [i64]) -> Result<Outline, Refusal>
    ensures answer { result ≡ plant_read s.now }
    ensures bands { bands.new ≡ bands_left s.now bands.old }
    ensures coef { coef.new ≡ coef_left s.now coef.old }
{
    let read = read_values(s, bands, coef);
    if read.is_err() {
        arrays::clear(bands);
        arrays::clear(coef);
    }
    read
}

// A plant's file, judged alone: its bands and coefficients are kept nowhere.
pub fn judge_plant(s: &[u8]) -> Result<Outline, Refusal>
    ensures { result ≡ plant_read s.now }
{
    let mut bands = [0i64; 0];
    let mut coef = [0i64; 0];
    read_plant(s, &mut bands, &mut coef)
}

// An end of mode 0's band in each dimension, the lower ones from 0 on, the higher ones from 1.
fn ends(bands: &[i64], from: usize) -> [i64; 4]
    requires { from ≤ 1 }
    ensures { result ≡ L.at bands.now from ∷ L.at bands.now (from + 2) ∷ L.at bands.now (from + 4) ∷ L.at bands.now (from + 6) ∷ [] }
{
    [
        arrays::number(bands, from),
        arrays::number(bands, from + 2),
        arrays::number(bands, from + 4),
        arrays::number(bands, from + 6),
    ]
}

// The file that the values would be, as far as there is room; the place behind it. Where n or N is out of range what follows is left out: the header is refused first.
fn put_plant(p: Outline, bands: &[i64], coef: &[i64], buf: &mut [u8]) -> usize
    ensures { Put buf.old 0 (plant_draft (plant_from p bands.now coef.now)) result buf.new }
{
    let n = p.n;
    let modes = p.modes;
    let Outline {
        rlo,
        rhi,
        slo,
        shi,
        ..
    } = p;
    let wlo = ends(bands, 0);
    let whi = ends(bands, 1);
    let b = Beginning {
        form: p.form,
        n,
        m: modes,
        q: p.q,
        k: p.k,
        d: p.d,
        root: Sides { lo: rlo, hi: rhi },
        safe: Sides { lo: slo, hi: shi },
        bands: Sides { lo: wlo, hi: whi },
    };
    let past = beginnings::put_beginning(buf, b);
    if 4 < n {
        return past;
    }
    if MODES < modes {
        return past;
    }
    modes::put_modes(buf, past, p.form, n, modes, bands, coef)
}

// A plant drafted in N bytes, which its file fits in, judged as that file, and left in the buffer.
fn write_by<const N: usize>(
    p: Outline,
    bands: &[i64],
    coef: &[i64],
    buf: &mut [u8],
) -> Result<usize, Refusal>
    requires room { length (plant_draft (plant_from p bands.now coef.now)) ≤ N }
    requires few { N ≤ 71_900 }
    ensures answer { result ≡ (plant_left (plant_from p bands.now coef.now) buf.old).answer }
    ensures bytes { buf.new ≡ (plant_left (plant_from p bands.now coef.now) buf.old).buffer }
{
    let mut draft = [0u8; N];
    let drafted = put_plant(p, bands, coef, &mut draft);
    let file = &draft[..drafted];
    buffers::leave(judge_plant(file), file, buf)
}

// A plant as values, judged as the file it would be, then 10; what its bands or coefficients lack is 0. Finished, only the file's bytes are changed; refused, the buffer is all zeros.
pub fn write_plant(
    p: Outline,
    bands: &[i64],
    coef: &[i64],
    buf: &mut [u8],
) -> Result<usize, Refusal>
    ensures answer { result ≡ (plant_left (plant_from p bands.now coef.now) buf.old).answer }
    ensures bytes { buf.new ≡ (plant_left (plant_from p bands.now coef.now) buf.old).buffer }
{
    if FEW < p.modes {
        write_by::<DRAFT>(p, bands, coef, buf)
    } else {
        write_by::<FEW_DRAFT>(p, bands, coef, buf)
    }
}
