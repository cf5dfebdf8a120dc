// The forms of a picture, as SVG, put on a page.
#![tactic(auto)]

pub mod axes;
pub mod frame;
pub mod legend;
pub mod points;
pub mod text;
pub mod trace;
