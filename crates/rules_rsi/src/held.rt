// The rule against the relative strength index: the positions that indexes open and close.
ghost use Rattle.std.specs.Prelude.{◌≡◌, ◌≤◌, length};
ghost use Rattle.cells.specs.Line.{line};
ghost use Rattle.cells.specs.Written.{Writing};
ghost use Rattle.rules_held.specs.Held.{moved};
ghost use Rattle.rules_rsi.specs.RsiReverse.{opens_at, turns_at, turned};

// What a flat position opens: long below `lower`, else short above `upper`.
fn opens_at(x: f64, upper: f64, lower: f64) -> i32
    ensures { result ≡ opens_at upper lower x }
{
    if x < lower {
        return 1;
    }
    if x > upper {
        return -1;
    }
    0
}

// The position after a bar, by its index.
fn turned_by(position: i32, x: f64, upper: f64, lower: f64, exit: f64) -> i32
    ensures { result ≡ moved position (turns_at upper lower exit x) }
{
    let opens = opens_at(x, upper, lower);
    rules_held::move_position(position, opens, x > exit, x < exit)
}

// Writes each bar's position by the indexes.
pub fn write_turned(indexes: &[f64], upper: f64, lower: f64, exit: f64, out: &mut [i32])
    requires { length indexes.now ≤ length out.old }
    ensures { Writing (length indexes.now) (turned upper lower exit (line indexes.now))
        out.old out.new }
{
    let mut position = 0;
    for i in 0..indexes.len() {
        position = turned_by(position, indexes[i], upper, lower, exit);
        out[i] = position;
    }
}
