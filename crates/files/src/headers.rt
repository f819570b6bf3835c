// The header that plants and sheets begin with: a form in 1..forms, n, a number in 1..most, q, K, D. Relies on fields. Leaves out what stands behind it.
ghost use Rattle.std.specs.Prelude.{◌≡◌, not};
ghost use Rattle.meaning.specs.Plants.{from};
ghost use Rattle.laws.specs.Writing.{Put};
ghost use Rattle.files.specs.Headers.{HeaderTold, head_bytes};

use crate::{fields, numbers, refusals};
use meaning::Refusal;

#[derive(Clone, Copy)]
pub struct Header {
    pub form: usize,
    pub n: usize,
    pub m: usize,
    pub q: usize,
    pub k: usize,
    pub d: usize,
}

// Whether a form is none of 1..forms.
fn unknown(forms: usize, form: usize) -> bool
    ensures { result ≡ not (from 1 forms form) }
{
    form == 0 || forms < form
}

pub fn read_header(s: &[u8], forms: usize, most: usize) -> Result<(Header, usize), Refusal>
    ensures { HeaderTold forms most s.now result }
{
    let (form, a) = numbers::number(s, 0).ok_or(refusals::broken(0))?;
    if unknown(forms, form) {
        return Err(refusals::wrong_form());
    }
    let (n, b) = fields::counted(s, a, 1, 4)?;
    let (m, c) = fields::counted(s, b, 1, most)?;
    let (q, e) = fields::counted(s, c, 1, 10_000)?;
    let (k, f) = fields::counted(s, e, 1, 6)?;
    let (d, next) = fields::counted(s, f, 0, 6)?;
    if 12 < n * d {
        return Err(refusals::unfit(f));
    }
    Ok((
        Header {
            form,
            n,
            m,
            q,
            k,
            d,
        },
        next,
    ))
}

// The header's bytes at the buffer's beginning, as far as there is room; the place behind them.
pub fn put_header(buf: &mut [u8], h: Header) -> usize
    ensures { Put buf.old 0 (head_bytes h) result buf.new }
{
    let mut at = numbers::put_number(buf, 0, h.form);
    at = numbers::put_number(buf, at, h.n);
    at = numbers::put_number(buf, at, h.m);
    at = numbers::put_number(buf, at, h.q);
    at = numbers::put_number(buf, at, h.k);
    numbers::put_number(buf, at, h.d)
}
