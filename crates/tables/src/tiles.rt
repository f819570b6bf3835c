// The tile rule (document 01, "Tile rule"): a pattern works for a box when each successive image lies in S and the last lies in R.
// Relies on images, and on boxes for what lies in what. Leaves out where the pattern comes from.
// An image that lies in S is a box of small edges again, so the next one is in range.
ghost use Rattle.std.specs.Prelude.{◌≡◌};
ghost use Rattle.meaning.specs.Plants.{edge_limit};
ghost use Rattle.meaning.specs.Rules.{rule};
ghost use Rattle.tables.specs.Boxes.{box_of, Small};
ghost use Rattle.tables.specs.Frames.{frame_from, rules_in, PlantSound};
ghost use Rattle.tables.specs.Tiles.{pattern_of, Pattern};

use crate::frames::Counts;
use crate::{boxes, images};
use files::bounds::Sides;
use meaning::Tried;

// The first k modes of us, tried on box b. Leaving S is told before missing R.
pub fn tile_rule(
    f: Counts,
    edges: &[[i64; 4]; 6],
    bands: &[i64],
    coef: &[i64],
    k: usize,
    us: [usize; 6],
    b: Sides,
) -> Tried
    requires plant { PlantSound (frame_from f edges.now) bands.now coef.now × Small edge_limit (box_of f.n b) }
    requires pattern { Pattern f.modes k us }
    ensures { result ≡ rule (rules_in (frame_from f edges.now) bands.now coef.now) (box_of f.n b) (pattern_of k us) }
{
    let glo = edges[2];
    let ghi = edges[3];
    let slo = edges[4];
    let shi = edges[5];
    let goal = Sides { lo: glo, hi: ghi };
    let safe = Sides { lo: slo, hi: shi };
    let mut c = b;
    for i in 0..k {
        c = images::image(f.n, f.q, bands, coef, us[i], &c.lo, &c.hi);
        if !boxes::within(f.n, c, safe) {
            return Tried::Leaves(i + 1);
        }
    }
    if boxes::within(f.n, c, goal) {
        Tried::Works
    } else {
        Tried::Misses(k)
    }
}
