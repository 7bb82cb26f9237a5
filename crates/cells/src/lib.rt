// Writing cells: filling and clearing slices, and work slices in rows (`rows`); and the bytes of a block that are not
// used yet, moved to its front.
#![tactic(auto)]

pub mod rows;

ghost use Rattle.std.specs.Prelude.{◌≡◌, ◌≤◌, min, length};
ghost use Rattle.std.specs.Float.{nan};
ghost use Rattle.cells.specs.Line.{plus_zero};
ghost use Rattle.cells.specs.inner.Leads.{Led};
ghost use Rattle.cells.specs.Written.{Writing};
ghost use Rattle.cells.specs.inner.Kept.{Kept};

// The smaller of two counts.
pub fn smaller(a: usize, b: usize) -> usize
    ensures { result ≡ min a b }
{
    a.min(b)
}

// Writes x to the first n cells.
pub fn fill<T: Copy>(cells: &mut [T], n: usize, x: T)
    requires { n ≤ length cells.old }
    ensures { Writing n (λ i. x) cells.old cells.new }
{
    for cell in &mut cells[..n] {
        *cell = x;
    }
}

// Writes +0.0 to the first n cells.
pub fn clear(cells: &mut [f64], n: usize)
    requires { n ≤ length cells.old }
    ensures { Writing n (λ i. plus_zero) cells.old cells.new }
{
    fill(cells, n, 0.0);
}

// Writes x to the bars before bar b, and gives the bar after them: b, or the end where the bars end before it.
pub fn fill_lead<T: Copy>(cells: &mut [T], b: usize, bars: usize, x: T) -> usize
    requires { bars ≤ length cells.old }
    ensures { Led b bars x result cells.old cells.new }
{
    let first = smaller(b, bars);
    fill(cells, first, x);
    first
}

// Writes NaN before bar b, and gives the bar after those cells.
pub fn fill_nan(cells: &mut [f64], b: usize, bars: usize) -> usize
    requires { bars ≤ length cells.old }
    ensures { Led b bars nan result cells.old cells.new }
{
    fill_lead(cells, b, bars, f64::NAN)
}

// Moves the bytes from `from` to `to` to the front of the block, and gives how many they are.
pub fn keep(block: &mut [u8], from: usize, to: usize) -> usize
    requires { (from ≤ to) × (to ≤ length block.old) }
    ensures { Kept from to block.old result block.new }
{
    block.copy_within(from..to, 0);
    to - from
}
