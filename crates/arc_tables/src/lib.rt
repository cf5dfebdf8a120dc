#![tactic(auto)]

// The tables of arc tangent and arc sine: angles with their tangents, sines and cosines, and that these belong together; no code.
