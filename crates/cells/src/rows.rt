// A work slice that a loop clears while it uses the last row. Each bar has seven cells in the rows before it, so that
// they are cleared in the time that a loop waits for its last result. C lends the slice and says the bars, so both are
// passed.
ghost use Rattle.std.specs.Prelude.{◌≡◌, ◌*◌, ◌<◌, ◌≤◌, length};
ghost use Rattle.cells.specs.Line.{plus_zero};
ghost use Rattle.cells.specs.Written.{Writing};
ghost use Rattle.cells.specs.inner.Scratch.{put_at, Scratch};

// Writes x to the last row's cell of bar i, and +0.0 to the bar's seven cells before that row.
pub fn put(work: &mut [f64], bars: usize, i: usize, x: f64)
    requires { (i < bars) × (8 * bars ≤ length work.old) }
    ensures { work.new ≡ put_at bars i x work.old }
{
    work[7 * bars + i] = x;
    crate::clear(&mut work[7 * i..], 7);
}

// Clears the cells of the first k bars.
pub fn clear_bars(work: &mut [f64], bars: usize, k: usize)
    requires { (k ≤ bars) × (8 * bars ≤ length work.old) }
    ensures { Scratch bars k (λ i. plus_zero) work.old work.new }
{
    let last = 7 * bars;
    crate::clear(work, 7 * k);
    crate::clear(&mut work[last..], k);
}

// Clears the last row, where the others are cleared.
pub fn clear_last(work: &mut [f64], bars: usize)
    requires { (8 * bars ≤ length work.old) × Writing (7 * bars) (λ i. plus_zero) work.old work.old }
    ensures { Writing (8 * bars) (λ i. plus_zero) work.old work.new }
{
    let last = 7 * bars;
    crate::clear(&mut work[last..], bars);
}
