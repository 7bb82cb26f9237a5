// The volatility smoothed three times: which bars a pass may use.
ghost use Rattle.std.specs.Prelude.{◌≡◌, ◌<◌, not, leb, true, false, length, MatchOption};
ghost use Rattle.cells.specs.Line.{line};
ghost use Rattle.cells.specs.Search.{first_bar};
ghost use Rattle.jurik.specs.Jurik.{all_same};
ghost use Rattle.jurik.specs.inner.Passes.{valid_by, none_by, differs};

// Which values a pass takes: numbers, or those other than 0.
#[derive(Clone, Copy)]
pub enum Taken {
    Numbers,
    Nonzero,
}

impl Taken {
    // Whether it takes x.
    pub fn takes(self, x: f64) -> bool
        ensures { result ≡ valid_by self x }
    {
        match self {
            Taken::Numbers => !x.is_nan(),
            Taken::Nonzero => x != 0.0,
        }
    }

    // What stands for the values that it does not take.
    pub fn none(self) -> f64
        ensures { result ≡ none_by self }
    {
        match self {
            Taken::Numbers => f64::NAN,
            Taken::Nonzero => 0.0,
        }
    }
}

// The first bar with a value that is taken.
fn first_taken(cells: &[f64], taken: Taken) -> Option<usize>
    ensures { MatchOption result (first_bar (λ j. valid_by taken (line cells.now j)) (length cells.now)
        ≡ length cells.now) (λ k. (k < length cells.now)
        × (k ≡ first_bar (λ j. valid_by taken (line cells.now j)) (length cells.now))) }
{
    for i in 0..cells.len() {
        if taken.takes(cells[i]) {
            return Some(i);
        }
    }
    None
}

// Whether a value that is taken is not equal to x.
fn other_taken(cells: &[f64], taken: Taken, x: f64) -> bool
    ensures { result ≡ not (leb (length cells.now)
        (first_bar (λ j. differs (valid_by taken) x (line cells.now j)) (length cells.now))) }
{
    for i in 0..cells.len() {
        if taken.takes(cells[i]) & (cells[i] != x) {
            return true;
        }
    }
    false
}

// The first bar with a value that is taken, where not all of them are equal: the average starts there.
pub fn average_start(cells: &[f64], taken: Taken) -> Option<usize>
    ensures { MatchOption result (all_same (valid_by taken) (length cells.now) (line cells.now) ≡ true)
        (λ k. (k < length cells.now)
        × (k ≡ first_bar (λ j. valid_by taken (line cells.now j)) (length cells.now))
        × (all_same (valid_by taken) (length cells.now) (line cells.now) ≡ false)) }
{
    match first_taken(cells, taken) {
        Some(first) if other_taken(cells, taken, cells[first]) => Some(first),
        _ => None,
    }
}
