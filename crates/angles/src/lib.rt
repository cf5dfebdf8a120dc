#![tactic(auto)]

// The angles that the MUF and the reflectrix hand to sine and cosine lie within -4 to 4, or are NaN: theorems only, in proofs/.
