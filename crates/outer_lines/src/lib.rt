// The two outer lines beside a middle line, as the bands and the channel have them.
#![tactic(auto)]

ghost use Rattle.std.specs.Prelude.{◌≤◌, length};
ghost use Rattle.std.specs.Float.{nan};
ghost use Rattle.cells.specs.Line.{line};
ghost use Rattle.cells.specs.Written.{Writing};
ghost use Rattle.outer_lines.specs.OuterLines.{upper_line, lower_line};

// Writes both outer lines, k widths above and below the middle. The widths stand in `upper`.
pub fn write_outer_lines(middle: &[f64], k: f64, bars: usize, upper: &mut [f64], lower: &mut [f64])
    requires { (bars ≤ length middle.now) × (bars ≤ length upper.old) × (bars ≤ length lower.old) }
    ensures { Writing bars (upper_line k (line middle.now) (line upper.old))
        upper.old upper.new
        × Writing bars (lower_line k (line middle.now) (line upper.old))
        lower.old lower.new }
{
    for i in 0..bars {
        let reach = k * upper[i];
        upper[i] = middle[i] + reach;
        lower[i] = middle[i] - reach;
    }
}

// Writes NaN to both outer lines.
pub fn fill_outer_lines(bars: usize, upper: &mut [f64], lower: &mut [f64])
    requires { (bars ≤ length upper.old) × (bars ≤ length lower.old) }
    ensures { Writing bars (λ i. nan) upper.old upper.new
        × Writing bars (λ i. nan) lower.old lower.new }
{
    cells::fill(upper, bars, f64::NAN);
    cells::fill(lower, bars, f64::NAN);
}
