// Document 01's values and answers, as the code holds them. What they mean stands in specs/, page by page; no code.
// Counts and places are usize, readings, edges, bands and coefficients i64. What may be refused is a Result with a Refusal, and
// what may be missing an Option; the paper's names of these answers stand in specs/, page Answers.

#![tactic(auto)]

// A refusal: its number in document 01's table, the place, the step.
#[derive(Clone, Copy)]
pub struct Refusal {
    pub number: u8,
    pub place: usize,
    pub step: usize,
}

// The modes of the largest plant, its mode coefficients, and the ends of its modes' bands.
pub const MODES: usize = 256;

pub const COEFFICIENTS: usize = 5_120;

pub const BANDS: usize = 2_048;

// A plant but for its bands and its coefficients, which are lent beside it, each in a flat array. Of each array of edges the first n entries count. Bands
// and coefficients stand mode by mode: the band of mode u in dimension i begins at 2·(u·n + i) with w lo, and w hi ends it; row i of mode u begins at
// (u·n + i)·(n + 1) with its n entries of A, and b_i ends it. A file of form 1 has one band for all modes, which stands there once for each.
#[derive(Clone, Copy)]
pub struct Outline {
    pub form: usize,
    pub n: usize,
    pub modes: usize,
    pub q: usize,
    pub k: usize,
    pub d: usize,
    pub rlo: [i64; 4],
    pub rhi: [i64; 4],
    pub slo: [i64; 4],
    pub shi: [i64; 4],
}

// A pattern tried on a box: it works, an image leaves S at that step, or the last one, of that step, is not in R.
#[derive(Clone, Copy)]
pub enum Tried {
    Works,
    Leaves(usize),
    Misses(usize),
}

// The controller between two calls: the place of the next mode and how many are left; idle is 0 and 0.
#[derive(Clone, Copy)]
pub struct State {
    pub place: usize,
    pub left: usize,
}

// The start controller between two calls: the index of the box whose table is run, and the state in that table; idle is 0, 0, 0.
#[derive(Clone, Copy)]
pub struct StartState {
    pub index: usize,
    pub state: State,
}

// What heats a room. Each kind carries only its own values.
#[derive(Clone, Copy)]
pub enum Emitter {
    None,
    Heater { coefficient: f64, water: f64 },
    Steady { rate: f64 },
}

// A room: its loss, its exchanges with the other rooms in ascending order (the first n - 1 count), its emitter.
#[derive(Clone, Copy)]
pub struct Room {
    pub loss: f64,
    pub exchange: [f64; 3],
    pub emitter: Emitter,
}

// A sheet: r counts a degree, the plant's figures, sample time and outside temperature, and n rooms.
#[derive(Clone, Copy)]
pub struct Sheet {
    pub n: usize,
    pub r: usize,
    pub q: usize,
    pub k: usize,
    pub d: usize,
    pub rlo: [i64; 4],
    pub rhi: [i64; 4],
    pub slo: [i64; 4],
    pub shi: [i64; 4],
    pub wlo: [i64; 4],
    pub whi: [i64; 4],
    pub time: f64,
    pub outside: f64,
    pub rooms: [Room; 4],
}
