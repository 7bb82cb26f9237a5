// The passes of the volatility smoothed three times: each averages or copies, over the values as they stand.
ghost use Rattle.std.specs.Prelude.{◌/◌, ◌<◌, length};
ghost use Rattle.cells.specs.Line.{line, plus_zero};
ghost use Rattle.cells.specs.Search.{non_zero};
ghost use Rattle.cells.specs.Written.{Writing};
ghost use Rattle.cells.specs.Recur.{carried};
ghost use Rattle.averages.specs.Blend.{blend, ema_alpha};
ghost use Rattle.jurik.specs.Jurik.{copied};
ghost use Rattle.jurik.specs.inner.Passes.{valid_by, none_by, tested, Ready};

use crate::bar::Taken;

// Writes 0.0 over every zero.
fn copy_nonzero(cells: &mut [f64])
    ensures { Writing (length cells.old) (copied non_zero plus_zero (line cells.old)) cells.old
        cells.new }
{
    for i in 0..cells.len() {
        cells[i] = if cells[i] != 0.0 { cells[i] } else { 0.0 };
    }
}

// Copies the values where they stand: numbers stay as they are, and of values other than 0 a zero becomes 0.0.
fn copy_taken(cells: &mut [f64], taken: Taken)
    ensures { Writing (length cells.old) (copied (valid_by taken) (none_by taken) (line cells.old))
        cells.old cells.new }
{
    match taken {
        Taken::Numbers => {}
        Taken::Nonzero => copy_nonzero(cells),
    }
}

// Writes over each value the average from bar `first` on, and `none` before it.
fn average_from(cells: &mut [f64], first: usize, none: f64, alpha: f64)
    requires { first < length cells.old }
    ensures { Writing (length cells.old) (carried none (blend alpha) first (line cells.old first)
        (line cells.old)) cells.old cells.new }
{
    cells::fill(cells, first, none);
    let mut last = cells[first];
    for i in first + 1..cells.len() {
        last = averages::blend::blended(alpha, last, cells[i]);
        cells[i] = last;
    }
}

// A pass over all bars: the average, or the values that it takes as they are where all of them are equal.
pub fn pass(cells: &mut [f64], taken: Taken, alpha: f64)
    ensures { Writing (length cells.old)
        (tested (valid_by taken) (none_by taken) alpha (length cells.old) (line cells.old)) cells.old cells.new }
{
    match crate::bar::average_start(cells, taken) {
        Some(first) => average_from(cells, first, taken.none(), alpha),
        None => copy_taken(cells, taken),
    }
}

// The third pass, with the span n / 3: it takes the values other than 0.
pub fn third_pass(cells: &mut [f64], n: usize)
    requires { Ready n (length cells.old) (length cells.old) }
    ensures { Writing (length cells.old)
        (tested non_zero plus_zero (ema_alpha (n / 3)) (length cells.old) (line cells.old)) cells.old cells.new }
{
    let alpha3 = 2.0 / ((n / 3 + 1) as f64);
    pass(cells, Taken::Nonzero, alpha3);
}
