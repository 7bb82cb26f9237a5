// The nets of a basket: weights times positions, added to the rows of an output.
ghost use Rattle.std.specs.Prelude.{◌≡◌, ◌+◌, ◌-◌, ◌≤◌, nat_abs, ◌*ℤ◌, length};
ghost use Rattle.cells.specs.Line.{line};
ghost use Rattle.rules.specs.Position.{whole_position};
ghost use Rattle.basket.specs.Basket.{largest_weight};
ghost use Rattle.basket.specs.inner.Adding.{RowRoom, Added, BarsRoom, RowsAdded};

use crate::ROWS;

// The weight times the position.
fn weighted(weight: i64, position: f64) -> i64
    requires { nat_abs weight ≤ largest_weight }
    ensures { result ≡ weight *ℤ whole_position position }
{
    if position > 0.0 {
        weight
    } else if position < 0.0 {
        0 - weight
    } else {
        0
    }
}

// Adds the weight times so many positions, from place `from` on, to the cells from `first` on.
fn add_row(out: &mut [i64], first: usize, weight: i64, positions: &[f64], from: usize, count: usize)
    requires { RowRoom first count from (length positions.now) weight out.old }
    ensures { Added first count (λ j. weight *ℤ whole_position (line positions.now (from + j)))
        out.old out.new }
{
    for j in 0..count {
        out[first + j] += weighted(weight, positions[from + j]);
    }
}

// Adds the weight times the positions of the bars from b to e - 1 to a group's row and to the last. The first position
// is that of bar `begin`.
pub fn add_bars(
    out: &mut [i64],
    bars: usize,
    row: usize,
    weight: i64,
    positions: &[f64],
    begin: usize,
    b: usize,
    e: usize,
)
    requires { BarsRoom bars row b e begin (length positions.now) weight out.old }
    ensures { RowsAdded bars row b e (λ j. weight *ℤ whole_position (line positions.now (j - begin)))
        out.old out.new }
{
    let from = b - begin;
    let count = e - b;
    add_row(out, row * bars + b, weight, positions, from, count);
    add_row(out, (ROWS - 1) * bars + b, weight, positions, from, count);
}
