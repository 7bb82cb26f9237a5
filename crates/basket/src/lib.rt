// Baskets: contracts with weights, and their net position at every bar, by group and in all.
#![tactic(auto)]

mod nets;
mod parts;
mod table;

ghost use Rattle.std.specs.Prelude.{◌*◌, ◌<◌, length};
ghost use Rattle.cells.specs.Written.{Writing};
ghost use Rattle.cells.specs.inner.Touched.{Touched};
ghost use Rattle.basket.specs.Basket.{rows, net_line, contracts_of, BasketCall};
ghost use Rattle.basket.specs.inner.Opened.{Opened};

use calls::Answer;

// The most contracts of a basket.
const MOST_CONTRACTS: usize = 32;

// Its groups, which count from 1.
const GROUPS: u64 = 32;

// The largest weight either way.
const LARGEST_WEIGHT: u64 = 1000;

// The rows of an output: one for each group, and one for the whole.
const ROWS: usize = 33;

// Writes the nets of all contracts.
fn write_nets(
    series: &[f64],
    contracts: &[u64],
    weights: &[i64],
    bars: usize,
    out: &mut [i64],
    work: &mut [f64],
)
    requires { Opened series.now contracts.now weights.now bars (length out.old) (length work.old)
        × (0 < bars) }
    ensures { Writing (rows * bars) (net_line bars (contracts_of bars series.now
        contracts.now weights.now)) out.old out.new
        × Touched (8 * bars) work.old work.new }
{
    let mut block = [0.0; 4096];
    cells::fill(out, ROWS * bars, 0);
    parts::add_contracts(series, contracts, weights, bars, out, &mut block, work);
}

// The nets of a basket of contracts: a row for each group and one for the whole, with a cell for each bar.
pub fn basket(
    series: &[f64],
    contracts: &[u64],
    weights: &[i64],
    out: &mut [i64],
    work: &mut [f64],
) -> Answer
    ensures { BasketCall series.now contracts.now weights.now
        out.old work.old result out.new work.new }
{
    let due = table::answer_basket(series, contracts, weights, out.len(), work.len());
    if calls::has_cells(due) {
        let bars = contracts[0] as usize;
        write_nets(series, contracts, weights, bars, out, work);
        cells::clear(work, 8 * bars);
    }
    due
}
