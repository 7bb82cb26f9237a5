// Ranges of neighbouring cells, joined from those of two parts. Two rows hold for each bar the range of its window's
// bars up to a bar e; `join_from` joins to it that of the bars from e on.
ghost use Rattle.std.specs.Prelude.{◌≡◌, ◌+◌, length};
ghost use Rattle.extremes.specs.inner.Range.{alone, joined};
ghost use Rattle.extremes.specs.inner.Part.{Replacing};
ghost use Rattle.extremes.specs.inner.Windows.{UpTo, Whole, WindowsOver};

// The highest and the lowest of neighbouring cells.
#[derive(Clone, Copy)]
pub struct HighLow {
    pub high: f64,
    pub low: f64,
}

// The range of one cell.
pub fn of_one(x: f64) -> HighLow
    ensures { result ≡ alone x }
{
    HighLow { high: x, low: x }
}

// The range of the cells of x and those of y, which stand right of them.
pub fn join(x: HighLow, y: HighLow) -> HighLow
    ensures { result ≡ joined x y }
{
    HighLow {
        high: crate::larger_of(x.high, y.high),
        low: crate::smaller_of(x.low, y.low),
    }
}

// Joins to what the rows hold, for each bar from e to `last`, the range of the bars from e on.
pub fn join_from(cells: &[f64], n: usize, e: usize, last: usize, rows: &mut [f64])
    requires windows_over { WindowsOver cells.now n e last (length rows.old) }
    requires replacing { Replacing (length cells.now) e (last + 1) (UpTo cells.now n e) rows.old rows.old }
    ensures { Replacing (length cells.now) e (last + 1) (Whole cells.now n)
        rows.old rows.new }
{
    let bars = cells.len();
    let mut best = of_one(cells[e]);
    for i in e + 1..last + 1 {
        best = join(best, of_one(cells[i]));
        let up_to = HighLow {
            high: rows[i],
            low: rows[bars + i],
        };
        let whole = join(up_to, best);
        rows[i] = whole.high;
        rows[bars + i] = whole.low;
    }
}
