#![tactic(auto)]

// How far the printed figure of a MUF, and the price of a call, can jump: laws of the definitions that the code of `figures` and `tariff` meets. No code.
