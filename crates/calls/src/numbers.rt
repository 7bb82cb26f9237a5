// An answer in numbers, as C programs get it.
ghost use Rattle.calls.specs.Numbers.{Numbers};

use crate::Answer;

// An answer in numbers: the refusal, or 0, and how many cells were written.
#[repr(C)]
#[derive(Clone, Copy)]
pub struct CAnswer {
    pub refusal: u64,
    pub count: u64,
}

// The numbers of an answer.
pub fn numbers(answer: Answer) -> CAnswer
    ensures { Numbers answer result }
{
    CAnswer {
        refusal: crate::refusal_of(answer),
        count: crate::count_of(answer) as u64,
    }
}
