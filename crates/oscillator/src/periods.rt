// The ultimate oscillator: the lengths of its three windows.
ghost use Rattle.std.specs.Prelude.{◌≡◌};
ghost use Rattle.oscillator.specs.inner.Begun.{longest};

#[derive(Clone, Copy)]
pub struct Periods {
    pub short: usize,
    pub medium: usize,
    pub long: usize,
}

impl Periods {
    // The longest of them.
    pub fn longest(self) -> usize
        ensures { result ≡ longest self }
    {
        self.short.max(self.medium.max(self.long))
    }
}
