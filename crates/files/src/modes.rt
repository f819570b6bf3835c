// The modes of a plant's file: the bands and rows of each, read into two lent arrays as far as these have room, and written. In form 1 one band for each
// dimension holds for all modes, in form 2 each mode has its own. In either form the bands of mode 0 stand right behind the edges, so they come with the
// beginning. Relies on bounds, rows and arrays. Leaves out what stands in front of them, and leftover bytes.
ghost use Rattle.std.specs.Prelude.{◌≡◌, true, ◌+◌, ◌*◌, ◌≤◌, ◌<◌, length};
ghost use Rattle.std.proofs.lemmas.List.Edits.{sets};
ghost use Rattle.laws.specs.Lists.{tabs};
ghost use Rattle.laws.specs.Writing.{Put};
ghost use Rattle.meaning.specs.Plants.{plant_forms, most_modes, own_bands, band_of};
ghost use Rattle.files.specs.Signed.{signed_bytes};
ghost use Rattle.files.specs.Beginnings.{relation, Begun};
ghost use Rattle.files.specs.Modes.{ends_alike, ModeTold, after_mode, FurtherTold, ModesTold, rest_numbers};

use crate::beginnings::{Beginning, BeginningRead};
use crate::bounds::Sides;
use crate::{arrays, bounds, refusals, rows};
use meaning::Refusal;

// What is to be said of R, S and the bands of all modes, and the place behind the modes.
#[derive(Clone, Copy)]
pub struct ModesRead {
    pub related: Result<(), Refusal>,
    pub next: usize,
}

// The bands of mode u, laid into the array behind those of the modes before it, as far as there is room.
fn lay(n: usize, u: usize, w: Sides, bands: &mut [i64])
    requires { (n ≤ 4) × (u < most_modes) }
    ensures { bands.new ≡ sets bands.old (2 * n * u) (tabs (band_of w.lo w.hi) n 0) }
{
    let from = 2 * n * u;
    for i in 0..n {
        arrays::store(bands, from + 2 * i, w.lo[i]);
        arrays::store(bands, from + 2 * i + 1, w.hi[i]);
    }
}

// The same bands laid for each mode, as far as there is room.
fn lay_alike(n: usize, modes: usize, w: Sides, bands: &mut [i64])
    requires { (n ≤ 4) × (modes ≤ most_modes) }
    ensures { bands.new ≡ sets bands.old 0 (ends_alike n w.lo w.hi modes) }
{
    for u in 0..modes {
        if bands.len() <= 2 * n * u {
            return;
        }
        lay(n, u, w, bands);
    }
}

// Mode u of form 2, its bands and then its rows, each into its array: the first dimension whose band is too narrow, n where none is, and the place behind
// the mode.
fn read_mode(
    s: &[u8],
    at: usize,
    n: usize,
    q: usize,
    u: usize,
    bands: &mut [i64],
    coef: &mut [i64],
) -> Result<(usize, usize), Refusal>
    requires sizes { (n ≤ 4) × (q ≤ 10_000) × (u < most_modes) }
    ensures { ModeTold s.now at n q u bands.old coef.old bands.new coef.new result }
{
    let (w, mid) = bounds::read_bands(s, at, n)?;
    lay(n, u, w, bands);
    let thin = w.first_narrow(n, q);
    let next = rows::read_rows(s, mid, n, n, n * (n + 1) * u, coef)?;
    Ok((thin, next))
}

// What is to be said behind mode u: what was to be said before it, or that its band is too narrow.
fn after(related: Result<(), Refusal>, n: usize, u: usize, thin: usize) -> Result<(), Refusal>
    ensures { result ≡ after_mode related n u thin }
{
    related?;
    if thin < n {
        return Err(refusals::narrow(u, thin));
    }
    Ok(())
}

// The modes of form 2 behind mode 0, whose rows end at `at`: bands and rows of each.
fn read_further(
    s: &[u8],
    b: Beginning,
    related: Result<(), Refusal>,
    at: usize,
    bands: &mut [i64],
    coef: &mut [i64],
) -> Result<ModesRead, Refusal>
    requires { (b.n ≤ 4) × (b.q ≤ 10_000) × (1 ≤ b.m) × (b.m ≤ most_modes) }
    ensures { FurtherTold s.now b related at bands.old coef.old bands.new coef.new result }
{
    let mut told = related;
    let mut p = at;
    for u in 1..b.m {
        let (thin, next) = read_mode(s, p, b.n, b.q, u, bands, coef)?;
        told = after(told, b.n, u, thin);
        p = next;
    }
    Ok(ModesRead {
        related: told,
        next: p,
    })
}

// The modes of form 2: the rows of mode 0, and then each further mode.
fn read_own(
    s: &[u8],
    begun: BeginningRead,
    bands: &mut [i64],
    coef: &mut [i64],
) -> Result<ModesRead, Refusal>
    requires { Begun plant_forms most_modes s.now begun.beginning begun.next × (own_bands begun.beginning.form ≡ true) × (begun.related ≡ relation begun.beginning) }
    ensures { ModesTold s.now begun.beginning begun.next bands.old coef.old bands.new coef.new result }
{
    let b = begun.beginning;
    lay(b.n, 0, b.bands, bands);
    let mid = rows::read_rows(s, begun.next, b.n, b.n, 0, coef)?;
    read_further(s, b, begun.related, mid, bands, coef)
}

// The modes behind a beginning: in form 1 its bands hold for each of them, and all rows follow.
pub fn read_modes(
    s: &[u8],
    begun: BeginningRead,
    bands: &mut [i64],
    coef: &mut [i64],
) -> Result<ModesRead, Refusal>
    requires { Begun plant_forms most_modes s.now begun.beginning begun.next × (begun.related ≡ relation begun.beginning) }
    ensures { ModesTold s.now begun.beginning begun.next bands.old coef.old bands.new coef.new result }
{
    let b = begun.beginning;
    if b.form == 2 {
        return read_own(s, begun, bands, coef);
    }
    lay_alike(b.n, b.m, b.bands, bands);
    let next = rows::read_rows(s, begun.next, b.n, b.m * b.n, 0, coef)?;
    Ok(ModesRead {
        related: begun.related,
        next,
    })
}

// What stands behind the bands of mode 0, from `at` on, as far as there is room; the place behind it.
pub fn put_modes(
    buf: &mut [u8],
    at: usize,
    form: usize,
    n: usize,
    modes: usize,
    bands: &[i64],
    coef: &[i64],
) -> usize
    requires sizes { (n ≤ 4) × (modes ≤ most_modes) }
    requires place { at ≤ length buf.old + 1 }
    ensures { Put buf.old at (signed_bytes (rest_numbers form n modes bands.now coef.now)) result buf.new }
{
    let size = n * (n + 1);
    if form != 2 {
        return rows::put_some(buf, at, coef, 0, size * modes);
    }
    let mut p = rows::put_some(buf, at, coef, 0, size);
    for u in 1..modes {
        p = rows::put_some(buf, p, bands, 2 * n * u, 2 * n);
        p = rows::put_some(buf, p, coef, size * u, size);
    }
    p
}
