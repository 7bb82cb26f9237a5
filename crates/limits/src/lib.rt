// The limits of a call, each said once: see specs/Limits.antt, which has the same numbers.
#![tactic(auto)]

// Bars of a series.
pub const LONGEST_SERIES: usize = 65536;

// Bars of a window.
pub const LONGEST_WINDOW: usize = 720;

// Bars of a smoother's period, and the same as f64.
pub const LONGEST_PERIOD: usize = 512;

pub const LONGEST_PERIOD_F64: f64 = 512.0;

// The largest magnitude of an accepted value and of a whole tick, 2^30 and 2^24.
pub const LARGEST_VALUE: f64 = 1073741824.0;

pub const LARGEST_TICK: f64 = 16777216.0;

// Their bits: of numbers from 0.0 on, none larger has smaller bits.
pub const LARGEST_VALUE_BITS: u64 = 0x41d0_0000_0000_0000;

pub const LARGEST_TICK_BITS: u64 = 0x4170_0000_0000_0000;
