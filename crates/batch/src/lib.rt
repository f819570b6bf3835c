// Plants and sheets read into values and written from values, for the side-by-side tests alone to call. Values are lent in arrays of their own types, so
// that every value can be handed in. Relies on files and sheets for everything else, and on face for how an answer is shown. Leaves out what face exports;
// no program links this.

#![tactic(auto)]

mod rooms;

ghost use Rattle.std.specs.Prelude.{◌≡◌};
ghost use Rattle.meaning.specs.Answers.{verdict_in};
ghost use Rattle.meaning.specs.Plants.{plant_read, bands_left, coef_left, plant_left};
ghost use Rattle.meaning.specs.Sheets.{sheet_read, sheet_left};
ghost use Rattle.meaning.specs.Refusals.{verdict_shown, written_shown};
ghost use Rattle.face.specs.Shown.{place_and_step, length_or_place};
ghost use Rattle.batch.specs.Values.{no_plant, outline_in, plant_header, plant_edges, plant_handed, kinds_of, all_floats_of, no_sheet, sheet_in, sheet_header, sheet_edges, sheet_times, sheet_handed};

use face::shown;
use files::plants;
use meaning::{Outline, Sheet};

// What stands for a plant that was refused: zeros.
fn no_plant() -> Outline
    ensures { result ≡ no_plant }
{
    Outline {
        form: 0,
        n: 0,
        modes: 0,
        q: 0,
        k: 0,
        d: 0,
        rlo: [0i64; 4],
        rhi: [0i64; 4],
        slo: [0i64; 4],
        shi: [0i64; 4],
    }
}

// A plant file: 0, or the number that it is refused by; out holds place and step. Its values: form, n, N, q, K, D; R lo, R hi, S lo, S hi; the bands; the
// coefficients, the last two as far as there is room.
#[unsafe(no_mangle)]
pub extern "C" fn batch_read_plant(
    plant: &[u8],
    header: &mut [usize; 6],
    edges: &mut [[i64; 4]; 4],
    bands: &mut [i64],
    coef: &mut [i64],
    out: &mut [u64; 2],
) -> u64
    ensures number { result ≡ (verdict_shown (verdict_in (plant_read plant.now))).number }
    ensures place { out.new ≡ place_and_step (verdict_shown (verdict_in (plant_read plant.now))) }
    ensures header { header.new ≡ plant_header (outline_in (plant_read plant.now)) }
    ensures edges { edges.new ≡ plant_edges (outline_in (plant_read plant.now)) }
    ensures bands { bands.new ≡ bands_left plant.now bands.old }
    ensures coef { coef.new ≡ coef_left plant.now coef.old }
{
    let read = plants::read_plant(plant, bands, coef);
    let p = read.unwrap_or(no_plant());
    let Outline {
        rlo,
        rhi,
        slo,
        shi,
        ..
    } = p;
    *header = [p.form, p.n, p.modes, p.q, p.k, p.d];
    *edges = [rlo, rhi, slo, shi];
    shown::verdict(read, out)
}

// The plant file of such values, arrays of any length, into a lent buffer: 0, or the number of the refusal; out holds the length written, or place and step.
#[unsafe(no_mangle)]
pub extern "C" fn batch_write_plant<'a>(
    header: &[usize; 6],
    edges: &[[i64; 4]; 4],
    bands: &'a [i64],
    coef: &'a [i64],
    buf: &mut [u8],
    out: &mut [u64; 2],
) -> u64
    ensures number { result ≡ (written_shown (plant_left (plant_handed header.now edges.now bands.now coef.now) buf.old).answer).number }
    ensures length { out.new ≡ length_or_place (plant_left (plant_handed header.now edges.now bands.now coef.now) buf.old).answer }
    ensures bytes { buf.new ≡ (plant_left (plant_handed header.now edges.now bands.now coef.now) buf.old).buffer }
{
    let [rlo, rhi, slo, shi] = *edges;
    let p = Outline {
        form: header[0],
        n: header[1],
        modes: header[2],
        q: header[3],
        k: header[4],
        d: header[5],
        rlo,
        rhi,
        slo,
        shi,
    };
    shown::written(plants::write_plant(p, bands, coef, buf), out)
}

// What stands for a sheet that was refused: zeros, and rooms with no emitter.
fn no_sheet() -> Sheet
    ensures { result ≡ no_sheet }
{
    Sheet {
        n: 0,
        r: 0,
        q: 0,
        k: 0,
        d: 0,
        rlo: [0i64; 4],
        rhi: [0i64; 4],
        slo: [0i64; 4],
        shi: [0i64; 4],
        wlo: [0i64; 4],
        whi: [0i64; 4],
        time: 0.0,
        outside: 0.0,
        rooms: [rooms::no_room(); 4],
    }
}

// A sheet file: 0, or the number that it is refused by; out holds place and step. Its values: n, r, q, K, D; R lo, R hi, S lo, S hi, w lo, w hi; sample time
// and outside temperature; each room's emitter number, and its floats (rooms).
#[unsafe(no_mangle)]
pub extern "C" fn batch_read_sheet(
    sheet: &[u8],
    header: &mut [usize; 5],
    edges: &mut [[i64; 4]; 6],
    times: &mut [f64; 2],
    kinds: &mut [u8; 4],
    floats: &mut [[f64; 6]; 4],
    out: &mut [u64; 2],
) -> u64
    ensures number { result ≡ (verdict_shown (verdict_in (sheet_read sheet.now))).number }
    ensures place { out.new ≡ place_and_step (verdict_shown (verdict_in (sheet_read sheet.now))) }
    ensures header { header.new ≡ sheet_header (sheet_in (sheet_read sheet.now)) }
    ensures edges { edges.new ≡ sheet_edges (sheet_in (sheet_read sheet.now)) }
    ensures times { times.new ≡ sheet_times (sheet_in (sheet_read sheet.now)) }
    ensures kinds { kinds.new ≡ kinds_of (sheet_in (sheet_read sheet.now)).rooms }
    ensures floats { floats.new ≡ all_floats_of (sheet_in (sheet_read sheet.now)).rooms }
{
    let read = sheets::sheets::read_sheet(sheet);
    let h = read.unwrap_or(no_sheet());
    let Sheet {
        rlo,
        rhi,
        slo,
        shi,
        wlo,
        whi,
        ..
    } = h;
    *header = [h.n, h.r, h.q, h.k, h.d];
    *edges = [rlo, rhi, slo, shi, wlo, whi];
    *times = [h.time, h.outside];
    *kinds = rooms::kinds(h.rooms);
    *floats = rooms::all_floats(h.rooms);
    shown::verdict(read, out)
}

// The sheet file of such values into a lent buffer: 0, or the number of the refusal; out holds the length written, or place and step.
#[unsafe(no_mangle)]
pub extern "C" fn batch_write_sheet(
    header: &[usize; 5],
    edges: &[[i64; 4]; 6],
    times: &[f64; 2],
    kinds: &[u8; 4],
    floats: &[[f64; 6]; 4],
    buf: &mut [u8],
    out: &mut [u64; 2],
) -> u64
    ensures number { result ≡ (written_shown (sheet_left (sheet_handed header.now edges.now times.now kinds.now floats.now) buf.old).answer).number }
    ensures length { out.new ≡ length_or_place (sheet_left (sheet_handed header.now edges.now times.now kinds.now floats.now) buf.old).answer }
    ensures bytes { buf.new ≡ (sheet_left (sheet_handed header.now edges.now times.now kinds.now floats.now) buf.old).buffer }
{
    let [rlo, rhi, slo, shi, wlo, whi] = *edges;
    let rooms = rooms::rooms(*kinds, *floats);
    let h = Sheet {
        n: header[0],
        r: header[1],
        q: header[2],
        k: header[3],
        d: header[4],
        rlo,
        rhi,
        slo,
        shi,
        wlo,
        whi,
        time: times[0],
        outside: times[1],
        rooms,
    };
    shown::written(sheets::sheets::write_sheet(h, buf), out)
}
