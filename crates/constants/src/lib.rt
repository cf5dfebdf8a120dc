// The Rust's constants (constants.rs), digit for digit.
#![tactic(auto)]

// degrees to radians
pub const D2R: f32 = 0.01745329251;
// radians to degrees
pub const R2D: f32 = 57.295779513;
// half pi
pub const PIO2: f32 = 1.570796326;
// the Earth's radius, km
pub const RZ: f32 = 6370.0;
