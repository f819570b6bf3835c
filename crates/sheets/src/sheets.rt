// Sheet files, read and written, and made into plant files. Relies on files' beginnings and on floats and rooms for the parts of a file, on made for the
// plant. Leaves out what a plant does: that is crates/tables.
ghost use Rattle.std.specs.Prelude.{◌≡◌, IfOk, pos, replicate};
ghost use Rattle.laws.specs.Writing.{Put};
ghost use Rattle.meaning.specs.Files.{good};
ghost use Rattle.meaning.specs.Sheets.{sheet_read_of, sheet_read, sheet_left, made_left};
ghost use Rattle.files.specs.Beginnings.{relation, Begun};
ghost use Rattle.sheets.specs.Sheets.{unfitted, then_fitting, body_read, sheet_with, TakenSized, sheet_draft, planned_of, planned_coef};
ghost use Rattle.sheets.specs.Made.{most_entries};
ghost use Rattle.sheets.specs.Sizes.{Sized};

use crate::floats::Asked;
use crate::made::{ENTRIES, Made};
use crate::{floats, made, rooms};
use files::beginnings::Beginning;
use files::bounds::Sides;
use files::{beginnings, buffers, plants};
use meaning::{Refusal, Room, Sheet};

// The writer's draft: more than the 503 bytes that any values of a sheet take, right or not.
const DRAFT: usize = 512;

// A beginning and what stands behind it, put together.
fn accepted(b: Beginning, time: f64, outside: f64, rooms: [Room; 4]) -> Result<Sheet, Refusal>
    ensures { result ≡ sheet_read_of (good (sheet_with b time outside rooms)) }
{
    let Beginning {
        form: _,
        n,
        m,
        q,
        k,
        d,
        root: Sides { lo: rlo, hi: rhi },
        safe: Sides { lo: slo, hi: shi },
        bands: Sides { lo: wlo, hi: whi },
    } = b;
    Ok(Sheet {
        n,
        r: m,
        q,
        k,
        d,
        rlo,
        rhi,
        slo,
        shi,
        wlo,
        whi,
        time,
        outside,
        rooms,
    })
}

// What stands behind a beginning: two floats and the rooms, then what is asked of the whole.
fn read_body(
    s: &[u8],
    b: Beginning,
    related: Result<(), Refusal>,
    at: usize,
) -> Result<Sheet, Refusal>
    requires fact_1 { Begun 1 1000 s.now b at }
    requires fact_2 { related ≡ relation b }
    ensures value { result ≡ body_read s.now b at }
    ensures sized { TakenSized result }
{
    let (time, outside, mid) = floats::read_two(s, at, Asked::Above)?;
    let (rooms, next) = rooms::read_rooms(s, mid, b.n)?;
    if next != s.len() {
        return Err(files::refusals::unfit(next));
    }
    related?;
    accepted(b, time, outside, rooms)
}

// A sheet's file, judged in order up to and with 5. The numbers of one that is taken are in range, which what is made of them relies on.
fn read_values(s: &[u8]) -> Result<Sheet, Refusal>
    ensures value { result ≡ unfitted s.now }
    ensures sized { TakenSized result }
{
    let read = beginnings::read_beginning(s, 1, 1_000)?;
    read_body(s, read.beginning, read.related, read.next)
}

// 14, told of the plant that a sheet makes.
fn fitted(h: Sheet) -> Result<Sheet, Refusal>
    requires { Sized h }
    ensures { result ≡ sheet_read_of (then_fitting (good h)) }
{
    let mut coef = [0i64; ENTRIES];
    made::make(h, &mut coef)?;
    Ok(h)
}

// A sheet's file, judged in order: number, place and step of the first fault, or the sheet.
pub fn read_sheet(s: &[u8]) -> Result<Sheet, Refusal>
    ensures { result ≡ sheet_read s.now }
{
    fitted(read_values(s)?)
}

// The file that the values would be, as far as there is room; the place behind it. Where n or r is out of range what follows is left out: the header is refused first.
fn put_sheet(h: Sheet, buf: &mut [u8]) -> usize
    ensures { Put buf.old 0 (sheet_draft h) result buf.new }
{
    let Sheet {
        n,
        r,
        q,
        k,
        d,
        rlo,
        rhi,
        slo,
        shi,
        wlo,
        whi,
        time,
        outside,
        rooms,
    } = h;
    let b = Beginning {
        form: 1,
        n,
        m: r,
        q,
        k,
        d,
        root: Sides { lo: rlo, hi: rhi },
        safe: Sides { lo: slo, hi: shi },
        bands: Sides { lo: wlo, hi: whi },
    };
    let past = beginnings::put_beginning(buf, b);
    if 4 < n || 1_000 < r {
        return past;
    }
    let past_time = floats::put_float(buf, past, time);
    let past_outside = floats::put_float(buf, past_time, outside);
    rooms::put_rooms(buf, past_outside, n, rooms)
}

// A sheet as values, judged as the file it would be, then 10. Finished, only the file's bytes are changed; refused, the buffer is all zeros.
pub fn write_sheet(h: Sheet, buf: &mut [u8]) -> Result<usize, Refusal>
    ensures answer { result ≡ (sheet_left h buf.old).answer }
    ensures bytes { buf.new ≡ (sheet_left h buf.old).buffer }
{
    let mut draft = [0u8; DRAFT];
    let drafted = put_sheet(h, &mut draft);
    let file = &draft[..drafted];
    buffers::leave(read_sheet(file), file, buf)
}

// The plant of a sheet's file, judged as the sheet; its coefficients in an array of zeros.
fn planned(sheet: &[u8], coef: &mut [i64; ENTRIES]) -> Result<Made, Refusal>
    requires zeros { coef.old ≡ replicate most_entries (pos 0) }
    ensures plant { result ≡ planned_of sheet.now }
    ensures coef { IfOk result (λ m. coef.new ≡ planned_coef sheet.now) }
{
    made::make(read_values(sheet)?, coef)
}

// The plant file of a sheet's file, judged as the sheet, then 10. Finished, only the file's bytes are changed; refused, the buffer is all zeros.
pub fn make_plant(sheet: &[u8], buf: &mut [u8]) -> Result<usize, Refusal>
    ensures answer { result ≡ (made_left sheet.now buf.old).answer }
    ensures bytes { buf.new ≡ (made_left sheet.now buf.old).buffer }
{
    let mut coef = [0i64; ENTRIES];
    match planned(sheet, &mut coef) {
        Err(e) => buffers::refuse(e, buf),
        Ok(made) => plants::write_plant(made.outline, &made.ends, &coef, buf),
    }
}
