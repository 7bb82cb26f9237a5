// The exponential rule: when running sums decide a bar.
ghost use Rattle.std.specs.Prelude.{◌≡◌};
ghost use Rattle.rules_ema.specs.inner.Far.{distance_of, decided};

// How far price and average by running sums have to be apart: on whole ticks those are exact, so any distance will do.
pub fn distance(series: &[f64], ticks: bool) -> f64
    ensures { result ≡ distance_of ticks series.now }
{
    if ticks { -1.0 } else { margins::margin(series) }
}

// Whether they are that far apart.
pub fn is_decided(d: f64, price: f64, average: f64) -> bool
    ensures { result ≡ decided d price average }
{
    d < rounding::magnitude(price - average)
}
