// The plant made of a sheet: its numbers in plant order, or the place of the first that the plant cannot hold. Relies on bands, equations,
// wholes and refusals. Leaves out the files (the sheet's and the plant's).
ghost use Rattle.std.specs.Prelude.{◌≡◌, ◌≤◌, IfOk, pos, replicate};
ghost use Rattle.meaning.specs.Sheets.{made_modes};
ghost use Rattle.sheets.specs.Sizes.{Sized};
ghost use Rattle.sheets.specs.Equations.{sums_of, bits_of};
ghost use Rattle.sheets.specs.Made.{most_entries, entry_at, EntriesTold, held_coef, made_of};

use crate::bands::ENDS;
use crate::{bands, equations, refusals, wholes};
use meaning::{Outline, Refusal, Sheet};

// The coefficients of the largest plant that a sheet makes: sixteen modes, four rows of five numbers each.
pub const ENTRIES: usize = 320;

// The p-th coefficient of the plant: row by row, mode by mode, n entries of A and b each. The sums and bits of the rooms are handed over.
fn entry(h: Sheet, sums: [f64; 4], bits: [usize; 4], p: usize) -> Option<i64>
    requires fact_1 { Sized h }
    requires fact_2 { sums ≡ sums_of h }
    requires fact_3 { bits ≡ bits_of h }
    ensures { result ≡ entry_at h p }
{
    let j = p % (h.n + 1);
    let row = p / (h.n + 1);
    let i = row % h.n;
    let u = row / h.n;
    let bit = bits[i];
    if j < h.n {
        return wholes::whole(
            20_000,
            h.q,
            equations::coefficient(h, sums[i], bit, u, i, j),
        );
    }
    wholes::whole(10_000_000_000, h.q * h.r, equations::offset(h, bit, u, i))
}

// The coefficients, in an array of zeros; or 14 at the first that is out, `place` being that of the first of them. The array is lent, since one that is
// answered is zeroed and copied at each return.
fn coefficients(
    h: Sheet,
    place: usize,
    count: usize,
    coef: &mut [i64; ENTRIES],
) -> Result<(), Refusal>
    requires fact_1 { Sized h }
    requires fact_2 { count ≤ most_entries }
    requires fact_3 { place ≤ 100 }
    requires zeros { coef.old ≡ replicate most_entries (pos 0) }
    ensures { EntriesTold h place count coef.new result }
{
    let sums = equations::loss_sums(h);
    let bits = equations::bits(h);
    for p in 0..count {
        let Some(v) = entry(h, sums, bits, p) else {
            return Err(refusals::bad_result(place + p));
        };
        coef[p] = v;
    }
    Ok(())
}

// N is 2 to the number of rooms that have an emitter.
fn modes(h: Sheet) -> usize
    requires { Sized h }
    ensures { result ≡ made_modes h }
{
    1 << equations::emitters(h, h.n)
}

// The plant, but for its coefficients, which stand in a lent array.
#[derive(Clone, Copy)]
pub struct Made {
    pub outline: Outline,
    pub ends: [i64; ENDS],
}

// The plant of a sheet; or 14 at the first of the plant file's numbers, its form being 0, that the plant cannot hold. Those in front of the bands it can.
// The coefficients go into an array of zeros.
pub fn make(h: Sheet, coef: &mut [i64; ENTRIES]) -> Result<Made, Refusal>
    requires sized { Sized h }
    requires zeros { coef.old ≡ replicate most_entries (pos 0) }
    ensures plant { result ≡ made_of h }
    ensures coef { IfOk result (λ m. coef.new ≡ held_coef h) }
{
    let n = h.n;
    let modes = modes(h);
    let place = 6 + 4 * n;
    let ends = bands::widened(h, place)?;
    coefficients(h, place + 2 * n, modes * n * (n + 1), coef)?;
    let Sheet {
        rlo,
        rhi,
        slo,
        shi,
        ..
    } = h;
    let outline = Outline {
        form: 1,
        n,
        modes,
        q: h.q,
        k: h.k,
        d: h.d,
        rlo,
        rhi,
        slo,
        shi,
    };
    Ok(Made { outline, ends })
}
