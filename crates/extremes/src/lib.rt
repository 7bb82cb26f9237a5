// The highest and the lowest of the last cells: the larger and the smaller of two, blocks of neighbouring cells
// (`blocks`), and every window (`ranges`).
#![tactic(auto)]

mod blocks;
pub mod ranges;

ghost use Rattle.std.specs.Prelude.{◌≡◌};
ghost use Rattle.extremes.specs.Extreme.{larger, smaller};

// The larger of two, the first of equals, as the definitions have it; std's `max` may give either zero.
pub fn larger_of(x: f64, y: f64) -> f64
    ensures { result ≡ larger x y }
{
    if x < y { y } else { x }
}

// The smaller of two, the first of equals.
pub fn smaller_of(x: f64, y: f64) -> f64
    ensures { result ≡ smaller x y }
{
    if y < x { y } else { x }
}
