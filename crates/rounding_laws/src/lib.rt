// What holds of whole numbers in f64, of the error of a rounding, and of bounds that rounding does not cross: see
// proofs/.
#![tactic(auto)]
