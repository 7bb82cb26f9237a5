// The coefficients of the ultimate smoother, by its period.
#![tactic(auto)]

mod table;

ghost use Rattle.std.specs.Prelude.{◌≡◌, ◌≤◌};
ghost use Rattle.smoother_table.specs.Coefficients.{of_pair, coefficients};
ghost use Rattle.smoother_table.specs.Period.{is_period};
ghost use Rattle.limits.specs.Limits.{longest_period};

use limits::LONGEST_PERIOD_F64;

// What the smoother's step needs of its period.
#[derive(Clone, Copy)]
pub struct Coefficients {
    pub c1: f64,
    pub c2: f64,
    pub c3: f64,
}

impl Coefficients {
    // Period 0 has neither c1 nor c2.
    const PERIOD_0: Coefficients = Coefficients {
        c1: f64::NAN,
        c2: f64::NAN,
        c3: -0.0,
    };

    fn of_pair(a1: f64, b1: f64) -> Coefficients
        ensures { result ≡ of_pair a1 b1 }
    {
        let c2 = b1;
        let c3 = -a1 * a1;
        Coefficients {
            c1: (1.0 + c2 - c3) / 4.0,
            c2,
            c3,
        }
    }

    // The coefficients of a whole period.
    pub fn of_period(period: usize) -> Coefficients
        requires { period ≤ longest_period }
        ensures { result ≡ coefficients period }
    {
        if period == 0 {
            return Coefficients::PERIOD_0;
        }
        Coefficients::of_pair(table::A1[period - 1], table::B1[period - 1])
    }
}

// Whether x is whole from 0 to 512.
pub fn is_period(x: f64) -> bool
    ensures { result ≡ is_period x }
{
    x >= 0.0 && x <= LONGEST_PERIOD_F64 && std::num::truncating_f64_to_u64(x) as f64 == x
}
