// The points that two programs of trials start from, and their slots. Of what they hold nothing is promised: the trials' stored
// outputs tell.
#![tactic(auto)]

use layers::{IonoState, LayerParams};
use refusal::Refusal;

// Five points, alike: E 2.75, F1 5.25 and F2 12.25 MHz.
pub fn points() -> [LayerParams; 5] {
    let point = LayerParams {
        fi: [2.75, 5.25, 12.25],
        yi: [30.0, 39.0, 96.0],
        hi: [107.0, 185.0, 205.0],
    };
    [point; 5]
}

// The first km of them, as `ionset` leaves them.
pub fn first_slots(km: usize) -> Result<IonoState, Refusal> {
    layers::slots::ionset(layers::slots::from_layers(points(), km)?)
}
