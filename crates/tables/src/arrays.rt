// The arrays that a plant's bands and coefficients are read into. Most plants have at most sixteen modes, and zeros for as many take a twentieth of the time
// that zeros for 256 modes take; so what makes or checks a table picks its arrays by the number of modes that the plant's file tells.
// No code: `check`, `make` and those of start files each call one generic function with either size, so that a small plant does not pay the stack of a large one.
pub const FEW_MODES: usize = 16;

pub const FEW_COEFFICIENTS: usize = 320;

pub const FEW_BANDS: usize = 128;
