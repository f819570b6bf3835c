// A lo with its hi, within a range: what edges and bands are read by, a plant's, a sheet's and a start file's. Relies on fields.
// Leaves out what a span is the side of.
ghost use Rattle.files.specs.Spans.{SpanTold};

use crate::fields;
use meaning::Refusal;

// lo within least..most, then hi within lo..most.
pub fn read_span(s: &[u8], at: usize, least: i64, most: i64) -> Result<(i64, i64, usize), Refusal>
    ensures { SpanTold least most s.now at result }
{
    let (lo, mid) = fields::ranged(s, at, least, most)?;
    let (hi, next) = fields::ranged(s, mid, lo, most)?;
    Ok((lo, hi, next))
}
