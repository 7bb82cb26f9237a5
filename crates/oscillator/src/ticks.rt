// The ultimate oscillator of whole ticks: its cells by running sums of three windows.
ghost use Rattle.std.specs.Prelude.{◌≡◌, ◌<◌, true, length};
ghost use Rattle.values.specs.Accepted.{tick, all};
ghost use Rattle.cells.specs.Line.{line};
ghost use Rattle.cells.specs.Written.{Writing};
ghost use Rattle.windows.specs.inner.Windows.{Windows};
ghost use Rattle.oscillator.specs.Oscillator.{ratio, weighed};
ghost use Rattle.oscillator.specs.inner.Sliding.{SumsOf};
ghost use Rattle.oscillator.specs.inner.Begun.{Begun, afresh};

use crate::bar::Sums;
use crate::periods::Periods;

// The sums of the n cells up to bar i.
fn sums_at(pressures: &[f64], ranges: &[f64], n: usize, i: usize) -> Sums
    requires { Windows n i 1 (length pressures.now) × (length ranges.now ≡ length pressures.now) }
    ensures { SumsOf n (line pressures.now) (line ranges.now) i result }
{
    Sums {
        over: windows::sum_at(pressures, n, i),
        under: windows::sum_at(ranges, n, i),
    }
}

// The cell of three windows' sums.
fn cell_of(short: Sums, medium: Sums, long: Sums) -> f64
    ensures { result ≡ weighed (ratio short.over short.under) (ratio medium.over medium.under)
        (ratio long.over long.under) }
{
    let a = crate::bar::ratio_of(short.over, short.under);
    let b = crate::bar::ratio_of(medium.over, medium.under);
    crate::bar::weigh(a, b, crate::bar::ratio_of(long.over, long.under))
}

// Writes the cells of whole ticks from bar `from` to the last, by running sums.
pub fn cells_of_ticks(
    pressures: &[f64],
    ranges: &[f64],
    periods: Periods,
    from: usize,
    out: &mut [f64],
)
    requires begun { Begun periods pressures.now ranges.now from out.old
        × (from < length pressures.now) }
    requires pressures_value { (all tick pressures.now ≡ true) × (all tick ranges.now ≡ true) }
    ensures { Writing (length pressures.now)
        (afresh periods pressures.now ranges.now) out.old
        out.new }
{
    let mut short_sums = sums_at(pressures, ranges, periods.short, from);
    let mut medium_sums = sums_at(pressures, ranges, periods.medium, from);
    let mut long_sums = sums_at(pressures, ranges, periods.long, from);
    out[from] = cell_of(short_sums, medium_sums, long_sums);
    for i in from + 1..pressures.len() {
        short_sums = crate::bar::slid(pressures, ranges, periods.short, i, short_sums);
        medium_sums = crate::bar::slid(pressures, ranges, periods.medium, i, medium_sums);
        long_sums = crate::bar::slid(pressures, ranges, periods.long, i, long_sums);
        out[i] = cell_of(short_sums, medium_sums, long_sums);
    }
}
