// The highest and the lowest of the last n cells, in time that does not grow with n: a window that reaches over bar e
// is the bars up to e and the bars from e on, and the range of either is had from its neighbour's in one step.
ghost use Rattle.std.specs.Prelude.{◌≡◌, ◌+◌, ◌-◌, ◌<◌, ◌≤◌, min, length};
ghost use Rattle.cells.specs.Line.{line};
ghost use Rattle.cells.specs.inner.Rows.{beside};
ghost use Rattle.cells.specs.Written.{Writing};
ghost use Rattle.extremes.specs.Extreme.{larger, smaller, extreme};
ghost use Rattle.extremes.specs.inner.Best.{Numbers};
ghost use Rattle.extremes.specs.inner.Range.{RangeOf};
ghost use Rattle.extremes.specs.inner.Part.{Replacing};
ghost use Rattle.extremes.specs.inner.Windows.{UpTo, Whole, WindowsOver};
ghost use Rattle.extremes.specs.inner.Blocks.{Room, LeadWritten};
ghost use Rattle.limits.specs.Limits.{longest_series, longest_window};

use crate::blocks::HighLow;

// The range of the cells of bars a to e.
fn range_of(cells: &[f64], a: usize, e: usize) -> HighLow
    requires { (a ≤ e) × (e < length cells.now) × Numbers (line cells.now) (length cells.now) }
    ensures { RangeOf (line cells.now) a e result }
{
    let mut best = crate::blocks::of_one(cells[a]);
    for x in &cells[a + 1..e + 1] {
        best = crate::blocks::join(best, crate::blocks::of_one(*x));
    }
    best
}

// Writes for each bar from `last` down to e the range of its window's bars up to e.
// The five arguments are no struct: `WindowsOver` names each one, and each function would take the struct apart.
fn write_up_to(cells: &[f64], n: usize, e: usize, last: usize, rows: &mut [f64])
    requires { WindowsOver cells.now n e last (length rows.old) }
    ensures { Replacing (length cells.now) e (last + 1) (UpTo cells.now n e)
        rows.old rows.new }
{
    let bars = cells.len();
    let mut best = range_of(cells, last + 1 - n, e);
    rows[last] = best.high;
    rows[bars + last] = best.low;
    for i in (e..last).rev() {
        best = crate::blocks::join(crate::blocks::of_one(cells[i + 1 - n]), best);
        rows[i] = best.high;
        rows[bars + i] = best.low;
    }
}

// Writes the ranges of the windows that end at bars e to `last`.
fn write_block(cells: &[f64], n: usize, e: usize, last: usize, rows: &mut [f64])
    requires { WindowsOver cells.now n e last (length rows.old) }
    ensures { Replacing (length cells.now) e (last + 1) (Whole cells.now n)
        rows.old rows.new }
{
    write_up_to(cells, n, e, last, rows);
    crate::blocks::join_from(cells, n, e, last, rows);
}

// The last of n bars from e on, or the last of all.
fn last_of(e: usize, n: usize, bars: usize) -> usize
    requires { (0 < n) × (n ≤ longest_window) × (e < bars) × (bars ≤ longest_series) }
    ensures { (e ≤ result) × (result < e + n) × (result < bars) × (min (e + n) bars ≡ result + 1) }
{
    cells::smaller(e + n, bars) - 1
}

// Writes the range of every whole window, block after block.
fn write_blocks(cells: &[f64], n: usize, rows: &mut [f64])
    requires { LeadWritten cells.now n rows.old }
    ensures { Replacing (length cells.now) 0 (length cells.now)
        (Whole cells.now n) rows.old rows.new }
{
    for e in (n - 1..cells.len()).step_by(n) {
        write_block(cells, n, e, last_of(e, n, cells.len()), rows);
    }
}

// The same of windows of one or two bars, each by itself.
fn write_pairs(cells: &[f64], n: usize, rows: &mut [f64])
    requires { (n ≤ 2) × LeadWritten cells.now n rows.old }
    ensures { Replacing (length cells.now) 0 (length cells.now)
        (Whole cells.now n) rows.old rows.new }
{
    let bars = cells.len();
    for i in n - 1..bars {
        let whole = crate::blocks::join(
            crate::blocks::of_one(cells[i + 1 - n]),
            crate::blocks::of_one(cells[i]),
        );
        rows[i] = whole.high;
        rows[bars + i] = whole.low;
    }
}

// Writes 0.0 to both rows before the first whole window.
fn write_lead(cells: &[f64], n: usize, first: usize, rows: &mut [f64])
    requires { Room cells.now n (length rows.old) × (first ≡ min (n - 1) (length cells.now)) }
    ensures { Replacing (length cells.now) 0 first (Whole cells.now n)
        rows.old rows.new }
{
    let bars = cells.len();
    cells::clear(rows, first);
    cells::clear(&mut rows[bars..], first);
}

// Writes the highest of the last n cells of each bar to one row and the lowest to the next, 0.0 before the first
// whole window.
pub fn write_ranges(cells: &[f64], n: usize, rows: &mut [f64])
    requires { Room cells.now n (length rows.old) }
    ensures { Writing (length cells.now + length cells.now)
        (beside (length cells.now) (extreme larger n (line cells.now))
        (extreme smaller n (line cells.now)))
        rows.old rows.new }
{
    write_lead(cells, n, cells::smaller(n - 1, cells.len()), rows);
    if n > 2 {
        write_blocks(cells, n, rows);
    } else {
        write_pairs(cells, n, rows);
    }
}
