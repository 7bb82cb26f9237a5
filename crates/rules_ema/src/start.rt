// The exponential rule: the bar at which its average starts.
ghost use Rattle.std.specs.Prelude.{◌≡◌, ◌+◌, ◌-◌, length};
ghost use Rattle.limits.specs.Limits.{Window};
ghost use Rattle.cells.specs.Line.{line};
ghost use Rattle.rules_ema.specs.SingleEma.{first_usable};

// The bar of the first mean that is not 0, or bar 0 where every mean is.
fn first_usable(means: &[f64]) -> usize
    ensures { result ≡ first_usable (length means.now) (line means.now) }
{
    let mut i = 0;
    loop {
        if i == means.len() {
            break 0;
        }
        if means[i] != 0.0 {
            break i;
        }
        i += 1;
    }
}

// The bar at which the average starts, from the means over n of all bars.
pub fn first_bar(means: &[f64], n: usize) -> usize
    requires { Window n }
    ensures { result ≡ first_usable (length means.now) (line means.now) + (n - 1) }
{
    first_usable(means) + (n - 1)
}
