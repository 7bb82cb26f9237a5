// Positions that are held until they close: one move, and the flat ones before the first.
#![tactic(auto)]

ghost use Rattle.std.specs.Prelude.{◌≡◌, ◌≤◌, length};
ghost use Rattle.cells.specs.inner.Leads.{Led};
ghost use Rattle.rules_held.specs.Held.{flat, moved};

// Positions are whole numbers and no enum, since the C interface has them in its cells.
// The position after a bar: a flat one becomes `opens`, a long or a short one closes or stays.
pub fn move_position(position: i32, opens: i32, closes_long: bool, closes_short: bool) -> i32
    ensures { result ≡ moved position (record {
      opens = opens;
      closes_long = closes_long;
      closes_short =
          closes_short;
    }) }
{
    if position > 0 {
        if closes_long { 0 } else { position }
    } else if position < 0 {
        if closes_short { 0 } else { position }
    } else {
        opens
    }
}

// Writes flat positions before bar b, and gives the bar after them: b, or the end where the bars end before it.
pub fn fill_flat(out: &mut [i32], b: usize, bars: usize) -> usize
    requires { bars ≤ length out.old }
    ensures { Led b bars flat result out.old out.new }
{
    cells::fill_lead(out, b, bars, 0)
}
