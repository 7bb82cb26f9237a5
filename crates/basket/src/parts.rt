// The positions of one contract, added to the nets. Those of one average and of the middle are made part by part, since
// an output of whole numbers has no room for them; double has running sums, which take all bars at once.
ghost use Rattle.std.specs.Prelude.{◌≡◌, ◌+◌, ◌-◌, ◌*◌, ◌<◌, ◌≤◌, pos, ◌*ℤ◌, length};
ghost use Rattle.limits.specs.Limits.{Window};
ghost use Rattle.cells.specs.Line.{line};
ghost use Rattle.cells.specs.Written.{Writing};
ghost use Rattle.cells.specs.inner.Touched.{Touched};
ghost use Rattle.calls.specs.Answer.{count_of};
ghost use Rattle.checks.specs.inner.Due.{Priced};
ghost use Rattle.rules.specs.Position.{whole_position};
ghost use Rattle.rules_double.specs.Double.{double_line, double_answer};
ghost use Rattle.basket.specs.Basket.{rows, net_line, contract_at, contracts_of};
ghost use Rattle.basket.specs.inner.Adding.{RowsAdded};
ghost use Rattle.basket.specs.inner.Parts.{part_bars, afresh_line, PartRoom, PartAdded, DoubleRoom};
ghost use Rattle.basket.specs.inner.Opened.{contract_of, Ready, Lent, ContractAdded, Opened};

// The bars of a part.
pub const PART_BARS: usize = 4096;

// A contract: its prices, its rule with the windows, the row of its group, and its weight. The rule is a number, as
// the C interface and the definitions of specs/ have it.
#[derive(Clone, Copy)]
struct Contract<'a> {
    prices: &'a [f64],
    rule: u64,
    n: usize,
    m: usize,
    row: usize,
    weight: i64,
}

// The bar with which the part begins whose first new bar is `at`: two windows before it, which its cells look back.
fn part_begin(at: usize, n: usize) -> usize
    requires { Window n }
    ensures { result ≡ at - (2 * n - 2) }
{
    let lead = 2 * n - 2;
    at.saturating_sub(lead)
}

// Writes the positions of these prices.
fn write_part(prices: &[f64], rule: u64, n: usize, block: &mut [f64], work: &mut [f64])
    requires { Priced 2 n prices.now (length block.old) (length work.old) }
    ensures { Writing (length prices.now) (afresh_line rule n (line prices.now))
        block.old block.new
        × Touched (2 * length prices.now) work.old work.new }
{
    if rule == 1 {
        rules_single::write_single(prices, n, block, work);
    } else {
        rules_middle::write_mid(prices, n, block, work);
    }
}

// Adds the positions of a part's new bars, which begin at `at`, and gives the bar after them.
fn add_part(
    contract: &Contract<'_>,
    at: usize,
    out: &mut [i64],
    block: &mut [f64],
    work: &mut [f64],
) -> usize
    requires { PartRoom contract.now.prices.now contract.now.n contract.now.weight contract.now.row at
        out.old (length block.old) (length work.old) × (at < length contract.now.prices.now) }
    ensures { PartAdded contract.now.prices.now contract.now.rule contract.now.n contract.now.weight contract.now.row
        at result out.old out.new block.old block.new work.old work.new
        × (at < result) × (result ≤ length contract.now.prices.now) }
{
    let prices = contract.prices;
    let bars = prices.len();
    let begin = part_begin(at, contract.n);
    let end = cells::smaller(bars, begin + PART_BARS);
    write_part(&prices[begin..end], contract.rule, contract.n, block, work);
    crate::nets::add_bars(
        out,
        bars,
        contract.row,
        contract.weight,
        block,
        begin,
        at,
        end,
    );
    end
}

// Adds the positions of all bars.
fn add_parts(contract: &Contract<'_>, out: &mut [i64], block: &mut [f64], work: &mut [f64])
    requires { PartRoom contract.now.prices.now contract.now.n contract.now.weight contract.now.row 0
        out.old (length block.old) (length work.old) }
    ensures { PartAdded contract.now.prices.now contract.now.rule contract.now.n contract.now.weight contract.now.row
        0 (length contract.now.prices.now) out.old out.new block.old block.new work.old work.new }
{
    let mut at = 0;
    // The step is what a part added, which no range counts.
    while at < contract.prices.len() {
        at = add_part(contract, at, out, block, work);
    }
}

// Adds the positions of the double rule, which are made in the work slice.
fn add_double(contract: &Contract<'_>, out: &mut [i64], work: &mut [f64])
    requires { DoubleRoom contract.now.prices.now contract.now.n contract.now.m contract.now.weight contract.now.row
        out.old (length work.old) }
    ensures { RowsAdded (length contract.now.prices.now) contract.now.row 0
        (count_of (double_answer contract.now.prices.now contract.now.n contract.now.m
        (length contract.now.prices.now)))
        (λ j. contract.now.weight *ℤ
        whole_position (double_line contract.now.n contract.now.m (line contract.now.prices.now) j)) out.old out.new
        × Touched (length contract.now.prices.now) work.old work.new }
{
    let prices = contract.prices;
    let given = rules::double_sma_positions(prices, contract.n, contract.m, work);
    let count = calls::count_of(given);
    crate::nets::add_bars(
        out,
        prices.len(),
        contract.row,
        contract.weight,
        work,
        0,
        0,
        count,
    );
}

// Adds a contract's weight times its positions to its row, and to the last.
fn add_positions(contract: &Contract<'_>, out: &mut [i64], block: &mut [f64], work: &mut [f64])
    requires { Ready (contract_of contract.now.prices.now contract.now.rule contract.now.n contract.now.m
        (contract.now.row + 1) contract.now.weight)
        × Lent (length contract.now.prices.now) out.old (length block.old) (length work.old) }
    ensures { ContractAdded (length contract.now.prices.now) (contract_of contract.now.prices.now contract.now.rule
        contract.now.n contract.now.m (contract.now.row + 1) contract.now.weight)
        out.old out.new block.old block.new work.old work.new }
{
    if contract.rule == 2 {
        add_double(contract, out, work);
    } else if contract.n > 0 {
        add_parts(contract, out, block, work);
    }
}

// Adds contract k.
fn add_contract(
    series: &[f64],
    contracts: &[u64],
    weights: &[i64],
    k: usize,
    bars: usize,
    out: &mut [i64],
    block: &mut [f64],
    work: &mut [f64],
)
    requires { Opened series.now contracts.now weights.now bars (length out.old) (length work.old)
        × (k < length weights.now) × Lent bars out.old (length block.old) (length work.old) }
    ensures { ContractAdded bars (contract_at bars series.now contracts.now
        weights.now k) out.old out.new block.old block.new
        work.old work.new }
{
    let from = k * bars;
    let to = from + bars;
    let at = 5 * k;
    let contract = Contract {
        prices: &series[from..to],
        rule: contracts[at + 1],
        n: contracts[at + 2] as usize,
        m: contracts[at + 3] as usize,
        row: contracts[at + 4] as usize - 1,
        weight: weights[k],
    };
    add_positions(&contract, out, block, work);
}

// Adds all contracts to rows of zeros. The positions of a part are made in `block`.
pub fn add_contracts(
    series: &[f64],
    contracts: &[u64],
    weights: &[i64],
    bars: usize,
    out: &mut [i64],
    block: &mut [f64],
    work: &mut [f64],
)
    requires { Opened series.now contracts.now weights.now bars (length out.old) (length work.old)
        × Writing (rows * bars) (λ i. pos 0) out.old out.old × (part_bars ≤ length block.old) × (0 < bars) }
    ensures { Writing (rows * bars) (net_line bars (contracts_of bars series.now
        contracts.now weights.now)) out.old out.new
        × Touched (8 * bars) work.old work.new }
{
    for k in 0..weights.len() {
        add_contract(series, contracts, weights, k, bars, out, block, work);
    }
}
