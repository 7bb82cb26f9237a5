// How many of neighbouring cells lie below a value, or below it by a distance.
#![tactic(auto)]

ghost use Rattle.std.specs.Prelude.{◌≡◌, Bool, ◌+◌, ◌≤◌, length, Float};
ghost use Rattle.cells.specs.Line.{line};
ghost use Rattle.ranks.specs.Counted.{below, below_by};
ghost use Rattle.ranks.specs.inner.Counting.{Answers, Counting};

// How many of the cells pass a test.
fn count_passing<F: Fn(f64) -> bool>(cells: &[f64], passes: F) -> usize
    requires { F.IsAlwaysCallable passes }
    ensures { (test : Float → Bool) → Answers test (F.post passes)
        → Counting test (line cells.now) 0 (length cells.now) result }
{
    let mut passed = 0;
    for x in cells {
        passed += usize::from(passes(*x));
    }
    passed
}

// How many of the `count` cells from `from` on lie below the value.
pub fn count_below(cells: &[f64], from: usize, count: usize, value: f64) -> usize
    requires { from + count ≤ length cells.now }
    ensures { Counting (below value) (line cells.now) from count result }
{
    count_passing(&cells[from..from + count], |x| x < value)
}

// How many of them lie below the value by the distance or more.
pub fn count_below_by(cells: &[f64], from: usize, count: usize, value: f64, distance: f64) -> usize
    requires { from + count ≤ length cells.now }
    ensures { Counting (below_by distance value) (line cells.now) from count result }
{
    count_passing(&cells[from..from + count], |x| value - x >= distance)
}
