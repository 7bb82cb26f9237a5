// The tanh rule, one bar: its score, and the cell of a score. The table of thresholds is lent, since the compiler
// copies a constant that is indexed to the stack: 800 bytes, once a call and not once a bar.
ghost use Rattle.std.specs.Prelude.{◌≡◌};
ghost use Rattle.std.specs.Float.{binary64};
ghost use Rattle.rounding_root.specs.Root.{sqrt_of};
ghost use Rattle.rules_tanh.specs.Tanh.{thresholds, steps_of, tanh_cell, score_of};

// The largest k whose threshold is at most a size. The thresholds rise.
fn steps_of(table: &[f64; 100], size: f64) -> usize
    requires { table.now ≡ thresholds }
    ensures { result ≡ steps_of size }
{
    table.partition_point(|threshold| *threshold <= size)
}

// The cell of a score.
pub fn cell_of(table: &[f64; 100], score: f64) -> f64
    requires { table.now ≡ thresholds }
    ensures { result ≡ tanh_cell score }
{
    let steps = steps_of(table, rounding::magnitude(score));
    rounding::sign(score) * ((steps as f64) / 100.0)
}

// The score of an average, where the width is the root of a variance.
pub fn score_of(average: f64, middle: f64, variance: f64) -> f64
    ensures { result ≡ score_of average middle (sqrt_of binary64 variance) }
{
    let width = rounding_root::square_root(variance);
    if width > 0.0 {
        (average - middle) / width
    } else {
        0.0
    }
}
