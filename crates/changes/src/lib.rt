// Changes from bar to bar: their gains and losses, and the relative strength index of two averages of them.
#![tactic(auto)]

ghost use Rattle.std.specs.Prelude.{◌≡◌, ◌<◌, length};
ghost use Rattle.cells.specs.Line.{line, plus_zero};
ghost use Rattle.changes.specs.Changes.{change, gain, loss, rsi_formula, rsi};

// An average gain and an average loss.
#[derive(Clone, Copy)]
pub struct Averages {
    pub gain: f64,
    pub loss: f64,
}

impl Averages {
    // The averages after a change: each takes the step from its last cell, with the gain or with the loss.
    pub fn moved<F: Fn(f64, f64) -> f64>(self, change: f64, step: F) -> Averages
        requires { F.IsAlwaysCallable step }
        ensures gain { F.post step self.gain (gain change) result.gain }
        ensures loss { F.post step self.loss (loss change) result.loss }
    {
        Averages {
            gain: step(self.gain, gain_of(change)),
            loss: step(self.loss, loss_of(change)),
        }
    }
}

// The value of bar i less that of the bar before.
pub fn change_at(series: &[f64], i: usize) -> f64
    requires { (0 < i) × (i < length series.now) }
    ensures { result ≡ change plus_zero (line series.now) i }
{
    series[i] - series[i - 1]
}

// A change where it is above 0, else 0.0.
pub fn gain_of(change: f64) -> f64
    ensures { result ≡ gain change }
{
    if 0.0 < change { change } else { 0.0 }
}

// The size of a change below 0, else 0.0.
pub fn loss_of(change: f64) -> f64
    ensures { result ≡ loss change }
{
    gain_of(-change)
}

// 100 - 100 / (1 + up / down).
pub fn strength(up: f64, down: f64) -> f64
    ensures { result ≡ rsi_formula up down }
{
    100.0 - 100.0 / (1.0 + up / down)
}

// The same of an average gain and an average loss, and 100 where that loss is 0.
pub fn strength_index(up: f64, down: f64) -> f64
    ensures { result ≡ rsi up down }
{
    if down == 0.0 {
        100.0
    } else {
        strength(up, down)
    }
}
