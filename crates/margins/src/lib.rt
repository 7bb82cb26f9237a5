// The margin beyond which an average by running sums decides: see proofs/.
#![tactic(auto)]

ghost use Rattle.std.specs.Prelude.{◌≡◌, ◌≤◌, length};
ghost use Rattle.cells.specs.Line.{line};
ghost use Rattle.margins.specs.inner.Margin.{largest_of, margin_of, far, AllFar};

// The largest magnitude of a series.
fn largest(series: &[f64]) -> f64
    ensures { result ≡ largest_of (line series.now) (length series.now) }
{
    let mut most = 0.0;
    for price in series {
        most = extremes::larger_of(most, rounding::magnitude(*price));
    }
    most
}

// The share of the largest price in the margin, 2^-31: above the error of two averages by running sums.
const MARGIN_SHARE: f64 = 4.656612873077393e-10;

// What is added to it, 2^-1000: prices among the smallest numbers have errors of whole units.
const MARGIN_LEAST: f64 = 9.332636185032189e-302;

// How far price and average have to be apart.
pub fn margin(series: &[f64]) -> f64
    ensures { result ≡ margin_of (largest_of (line series.now) (length series.now)) }
{
    largest(series) * MARGIN_SHARE + MARGIN_LEAST
}

// Whether price and average, and average and 0, are farther apart than d.
pub fn is_far(d: f64, price: f64, average: f64) -> bool
    ensures { result ≡ far d price average }
{
    d < rounding::magnitude(price - average) && d < rounding::magnitude(average)
}

// Whether that holds of every bar from `first` on. All are looked at, so that the loop takes several at a time.
pub fn all_far(series: &[f64], averages: &[f64], first: usize, d: f64) -> bool
    requires { length series.now ≤ length averages.now }
    ensures { AllFar result first
        (λ i. far d (line series.now i) (line averages.now i))
        (length series.now) }
{
    let mut far = true;
    for i in first..series.len() {
        far &= is_far(d, series[i], averages[i]);
    }
    far
}
