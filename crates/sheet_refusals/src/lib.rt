// No function: which refusals `chain` and `sheet` answer, and the numbers of an answered sheet's first line.
#![tactic(auto)]
