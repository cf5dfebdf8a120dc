#![tactic(auto)]

// Power series with whole numerators and denominators: definitions and theorems, no code.
