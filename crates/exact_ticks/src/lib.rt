// What holds of windows, means and extremes of whole ticks: see proofs/.
#![tactic(auto)]
