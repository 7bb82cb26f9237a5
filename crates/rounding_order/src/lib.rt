// What keeps its order when it is rounded: sums, differences, products, and squares beside a root: see proofs/.
#![tactic(auto)]
