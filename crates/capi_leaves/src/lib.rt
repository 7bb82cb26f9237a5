// The leaves, and the cell of a score of the tanh rule, as C functions, for the stored run and for tools/root.
// tests/leaves.h declares them.
#![tactic(auto)]

ghost use Rattle.std.specs.Prelude.{◌≡◌};
ghost use Rattle.std.specs.Float.{binary64};
ghost use Rattle.std.specs.Float.Ieee.{is_nan};
ghost use Rattle.rounding.specs.Leaves.{magnitude_of, sign_of, round_to_whole};
ghost use Rattle.rounding_root.specs.Root.{sqrt_of};
ghost use Rattle.rules_tanh.specs.Tanh.{tanh_cell};

#[unsafe(no_mangle)]
pub extern "C" fn tegbalowu_is_nan(x: f64) -> bool
    ensures { result ≡ is_nan x }
{
    rounding::is_nan(x)
}

#[unsafe(no_mangle)]
pub extern "C" fn tegbalowu_magnitude(x: f64) -> f64
    ensures { result ≡ magnitude_of x }
{
    rounding::magnitude(x)
}

#[unsafe(no_mangle)]
pub extern "C" fn tegbalowu_sign(x: f64) -> f64
    ensures { result ≡ sign_of x }
{
    rounding::sign(x)
}

#[unsafe(no_mangle)]
pub extern "C" fn tegbalowu_round_to_whole(x: f64) -> f64
    ensures { result ≡ round_to_whole x }
{
    rounding::round_to_whole(x)
}

#[unsafe(no_mangle)]
pub extern "C" fn tegbalowu_square_root(x: f64) -> f64
    ensures { result ≡ sqrt_of binary64 x }
{
    rounding_root::square_root(x)
}

#[unsafe(no_mangle)]
pub extern "C" fn tegbalowu_tanh_cell(score: f64) -> f64
    ensures { result ≡ tanh_cell score }
{
    rules_tanh::tanh_cell(score)
}
