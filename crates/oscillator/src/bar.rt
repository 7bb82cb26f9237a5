// The ultimate oscillator, one bar: its buying pressure, a ratio, the three weighed, and sums that slide on to it.
ghost use Rattle.std.specs.Prelude.{◌≡◌, ◌-◌};
ghost use Rattle.cells.specs.Line.{line};
ghost use Rattle.oscillator.specs.Oscillator.{last_close, pressure, ratio, weighed};
ghost use Rattle.oscillator.specs.inner.Sliding.{SumsOf, TickRows};

// The close before a bar, and the bar's own where that is unknown.
fn last_close(close: f64, before: Option<f64>) -> f64
    ensures { result ≡ last_close close before }
{
    before.unwrap_or(close)
}

// The buying pressure of a bar.
pub fn pressure_of(low: f64, close: f64, before: Option<f64>) -> f64
    ensures { result ≡ pressure low close before }
{
    let last = last_close(close, before);
    if last < low {
        close - last
    } else {
        close - low
    }
}

// x over y, and 0 where y is 0.
pub fn ratio_of(x: f64, y: f64) -> f64
    ensures { result ≡ ratio x y }
{
    if y == 0.0 { 0.0 } else { x / y }
}

// Three shares, weighed.
pub fn weigh(short: f64, medium: f64, long: f64) -> f64
    ensures { result ≡ weighed short medium long }
{
    100.0 * (4.0 * short + 2.0 * medium + long) / 7.0
}

// The sums of one window over both rows.
#[derive(Clone, Copy)]
pub struct Sums {
    pub over: f64,
    pub under: f64,
}

// The sums up to bar i of whole ticks, from those up to the bar before: exact, so that they are those summed afresh.
pub fn slid(pressures: &[f64], ranges: &[f64], n: usize, i: usize, last: Sums) -> Sums
    requires tick_rows { TickRows n pressures.now ranges.now i }
    requires sums_of { SumsOf n (line pressures.now) (line ranges.now) (i - 1) last }
    ensures { SumsOf n (line pressures.now) (line ranges.now) i result }
{
    Sums {
        over: last.over + (pressures[i] - pressures[i - n]),
        under: last.under + (ranges[i] - ranges[i - n]),
    }
}
