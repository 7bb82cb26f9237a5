// What a call answers: a count of cells, or a refusal; and the same in numbers for C (`numbers`).
#![tactic(auto)]

pub mod numbers;

ghost use Rattle.std.specs.Prelude.{◌≡◌, ltb};
ghost use Rattle.calls.specs.Answer.{number, refusal_of, count_of};

// Why a call is refused, each by its number.
#[derive(Clone, Copy)]
pub enum Refusal {
    SeriesTooLong = 1,
    LengthsDiffer = 2,
    OutputTooShort = 3,
    WorkTooShort = 4,
    ValueNotAccepted = 5,
    ParameterNotFinite = 6,
    WindowTooLong = 7,
    SeriesTooShort = 8,
    WindowsOutOfOrder = 9,
    BrokenLine = 10,
    LowAboveHigh = 11,
    CoveredTwice = 12,
    NotCovered = 13,
    PositionUnknown = 14,
    WeightTooLarge = 16,
}

// How many cells of each output were written, or why none were.
pub type Answer = Result<usize, Refusal>;

// The number of a refusal.
pub fn number_of(reason: Refusal) -> u64
    ensures { result ≡ number reason }
{
    reason as u64
}

// The number of an answer's refusal, 0 where there is none.
pub fn refusal_of(answer: Answer) -> u64
    ensures { result ≡ refusal_of answer }
{
    match answer {
        Ok(_) => 0,
        Err(reason) => number_of(reason),
    }
}

// How many cells of each output were written.
pub fn count_of(answer: Answer) -> usize
    ensures { result ≡ count_of answer }
{
    answer.unwrap_or(0)
}

// Whether an answer has cells.
pub fn has_cells(answer: Answer) -> bool
    ensures { result ≡ ltb 0 (count_of answer) }
{
    count_of(answer) > 0
}
