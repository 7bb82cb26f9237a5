// The rules that a request may ask, and their numbers in its line.
ghost use Rattle.std.specs.Prelude.{◌≡◌};
ghost use Rattle.sheet_lines.specs.Rule.{rule_of, rule_number};

// One average, double and middle.
#[derive(Clone, Copy)]
pub enum Rule {
    Single = 1,
    Double = 2,
    Middle = 3,
}

impl Rule {
    // The rule of a number, if it is one.
    pub fn of_number(number: u64) -> Option<Self>
        ensures { result ≡ rule_of number }
    {
        match number {
            1 => Some(Rule::Single),
            2 => Some(Rule::Double),
            3 => Some(Rule::Middle),
            _ => None,
        }
    }

    // Its number.
    pub fn number(self) -> u64
        ensures { result ≡ rule_number self }
    {
        self as u64
    }
}
