// What a table is made, checked and run by, all but bands and coefficients: their arrays are lent beside it, so that a call copies only what is small.
// Relies on boxes. Leaves out how a plant is read and judged, and which form is asked for.
ghost use Rattle.std.specs.Prelude.{◌≡◌, ◌≤◌};
ghost use Rattle.meaning.specs.Tables.{depth_by};
ghost use Rattle.tables.specs.Frames.{frame_of, formed, counts_of, edges_of};

use files::bounds::Sides;
use meaning::Outline;

// The form of its table; the box that is tiled, the box that patterns end in, the box that nothing may leave; the rest as in a plant.
#[derive(Clone, Copy)]
pub struct Frame {
    pub form: usize,
    pub n: usize,
    pub modes: usize,
    pub q: usize,
    pub k: usize,
    pub d: usize,
    pub root: Sides,
    pub goal: Sides,
    pub safe: Sides,
}

// A plant's own frame, of form 1: R is tiled, and patterns end in R.
pub fn framed(p: Outline) -> Frame
    ensures { result ≡ frame_of p }
{
    let rlo = p.rlo;
    let rhi = p.rhi;
    let slo = p.slo;
    let shi = p.shi;
    let root = Sides { lo: rlo, hi: rhi };
    Frame {
        form: 1,
        n: p.n,
        modes: p.modes,
        q: p.q,
        k: p.k,
        d: p.d,
        root,
        goal: root,
        safe: Sides { lo: slo, hi: shi },
    }
}

// The same of another form.
pub fn formed(f: Frame, form: usize) -> Frame
    ensures { result ≡ formed f form }
{
    Frame { form, ..f }
}

// How deep the splits of a form may go: where it halves one side at a time, n times as deep.
pub fn depth(form: usize, n: usize, d: usize) -> usize
    requires { (n ≤ 4) × (d ≤ 6) }
    ensures { result ≡ depth_by form n d }
{
    if form == 3 { n * d } else { d }
}

// A frame taken apart, for the functions that call themselves: its numbers by value, and its boxes lent, so that no call copies a box.
#[derive(Clone, Copy)]
pub struct Counts {
    pub form: usize,
    pub n: usize,
    pub modes: usize,
    pub q: usize,
    pub k: usize,
    pub d: usize,
}

pub fn counts_of(f: Frame) -> Counts
    ensures { result ≡ counts_of f }
{
    Counts {
        form: f.form,
        n: f.n,
        modes: f.modes,
        q: f.q,
        k: f.k,
        d: f.d,
    }
}

// Lows and highs of the box that is tiled, of the box that patterns end in, and of the box that nothing may leave.
pub fn edges_of(f: Frame) -> [[i64; 4]; 6]
    ensures { result ≡ edges_of f }
{
    let Sides { lo: rlo, hi: rhi } = f.root;
    let Sides { lo: glo, hi: ghi } = f.goal;
    let Sides { lo: slo, hi: shi } = f.safe;
    [rlo, rhi, glo, ghi, slo, shi]
}
