// What plants and sheets begin with alike: a header, R, S and w, read and written, and judged against one another. Relies on headers and bounds.
// Leaves out what stands behind it, and when the judgement is told: the caller does that, behind leftover bytes.
ghost use Rattle.std.specs.Prelude.{◌≡◌, ◌≤◌};
ghost use Rattle.laws.specs.Writing.{Put};
ghost use Rattle.files.specs.Bounds.{BandSizes};
ghost use Rattle.files.specs.Beginnings.{relation, BoundsTold, beginning_read, BeginningTold, beginning_bytes};

use crate::bounds::Sides;
use crate::headers::Header;
use crate::{bounds, headers, refusals};
use meaning::Refusal;

// The header's numbers, m being a plant's N or a sheet's r, then R, S and w.
#[derive(Clone, Copy)]
pub struct Beginning {
    pub form: usize,
    pub n: usize,
    pub m: usize,
    pub q: usize,
    pub k: usize,
    pub d: usize,
    pub root: Sides,
    pub safe: Sides,
    pub bands: Sides,
}

// A beginning that was read, what is to be said of its R, S and w, and the place behind it.
#[derive(Clone, Copy)]
pub struct BeginningRead {
    pub beginning: Beginning,
    pub related: Result<(), Refusal>,
    pub next: usize,
}

// Whether R lies in S, then whether each band is wide enough.
fn judge(b: Beginning) -> Result<(), Refusal>
    requires fact_1 { b.n ≤ 4 }
    requires fact_2 { b.q ≤ 10000 }
    requires fact_3 { BandSizes b.n b.bands.lo b.bands.hi }
    ensures { result ≡ relation b }
{
    let n = b.n;
    let out = b.root.first_out(b.safe, n);
    if out < n {
        return Err(refusals::not_in_safe(out));
    }
    let thin = b.bands.first_narrow(n, b.q);
    if thin < n {
        return Err(refusals::narrow(0, thin));
    }
    Ok(())
}

// What stands behind a header.
fn read_bounds(s: &[u8], h: Header, at: usize) -> Result<(Beginning, usize), Refusal>
    requires { h.n ≤ 4 }
    ensures { BoundsTold s.now h at result }
{
    let (root, safe, mid) = bounds::read_edges(s, at, h.n)?;
    let (bands, next) = bounds::read_bands(s, mid, h.n)?;
    let beginning = Beginning {
        form: h.form,
        n: h.n,
        m: h.m,
        q: h.q,
        k: h.k,
        d: h.d,
        root,
        safe,
        bands,
    };
    Ok((beginning, next))
}

pub fn read_beginning(s: &[u8], forms: usize, most: usize) -> Result<BeginningRead, Refusal>
    ensures value { result ≡ beginning_read forms most s.now }
    ensures told { BeginningTold forms most s.now result }
{
    let (h, at) = headers::read_header(s, forms, most)?;
    let (beginning, next) = read_bounds(s, h, at)?;
    Ok(BeginningRead {
        beginning,
        related: judge(beginning),
        next,
    })
}

// The file's bytes at the buffer's beginning, as far as there is room; the place behind them. Where n is out of range the header says it all.
pub fn put_beginning(buf: &mut [u8], b: Beginning) -> usize
    ensures { Put buf.old 0 (beginning_bytes b) result buf.new }
{
    let n = b.n;
    let h = Header {
        form: b.form,
        n,
        m: b.m,
        q: b.q,
        k: b.k,
        d: b.d,
    };
    let past_header = headers::put_header(buf, h);
    if 4 < n {
        return past_header;
    }
    let past_edges = bounds::put_edges(buf, past_header, n, b.root, b.safe);
    bounds::put_bands(buf, past_edges, n, b.bands)
}
