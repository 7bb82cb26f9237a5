// The checks of a basket's call: its table, its slices, its weights, and then its contracts in list order. C lends
// series, table and weights one by one, and contracts name each: a struct of the three is no plainer.
ghost use Rattle.std.specs.Prelude.{◌≡◌, List, ◌+◌, ◌*◌, ◌^◌, ◌<◌, ◌≤◌, eqb, ℤ, pos, length, get_or, Ok};
ghost use Rattle.cells.specs.Search.{every_bar};
ghost use Rattle.rules.specs.ByNumber.{answer_by_rule};
ghost use Rattle.basket.specs.Basket.{
  rows,
  own_answer,
  contract_at,
  contracts_of,
  each_answered,
  basket_answer,
};
ghost use Rattle.basket.specs.inner.Listed.{listed, as_long, light, Listed, Sized, listed_answer};

use crate::{GROUPS, LARGEST_WEIGHT, MOST_CONTRACTS, ROWS};
use calls::{Answer, Refusal};

// Whether each contract has a group and a rule.
fn all_listed(contracts: &[u64], count: usize) -> bool
    requires { 5 * count ≤ length contracts.now }
    ensures { result ≡ every_bar (listed contracts.now) count }
{
    (0..count).all(|k| {
        let group = contracts[5 * k + 4];
        let rule = contracts[5 * k + 1];
        (1..=GROUPS).contains(&group) && (1..=3).contains(&rule)
    })
}

// Whether each contract has so many bars.
fn all_as_long(contracts: &[u64], count: usize, bars: u64) -> bool
    requires { 5 * count ≤ length contracts.now }
    ensures { result ≡ every_bar (as_long contracts.now bars) count }
{
    (0..count).all(|k| contracts[5 * k] == bars)
}

// Whether so many parts of so many bars make a slice of `len`.
fn makes_up(len: usize, count: usize, bars: usize) -> bool
    requires { 0 < count }
    ensures { result ≡ eqb (count * bars) len }
{
    (len / count == bars) & (len % count == 0)
}

// Whether a weight is not too large either way.
fn is_light(weight: i64) -> bool
    ensures { result ≡ light weight }
{
    weight.unsigned_abs() <= LARGEST_WEIGHT
}

// Whether no weight is too large.
fn all_light(weights: &[i64]) -> bool
    ensures { result ≡ every_bar (λ k. light (get_or weights.now k (pos 0)))
        (length weights.now) }
{
    weights.iter().all(|weight| is_light(*weight))
}

// What a call of the rule alone answers on these prices, with so many work cells.
fn own_answer(prices: &[f64], rule: u64, n: usize, m: usize, work: usize) -> Answer
    ensures { result ≡ answer_by_rule rule n m prices.now (length prices.now) work }
{
    if rule == 2 {
        rules_double::answer_double(prices, n, m, prices.len())
    } else {
        checks::answer_window_with_work(prices, n, prices.len(), work)
    }
}

// What a call of contract k's rule alone answers, whatever the weights.
fn answer_contract(series: &[f64], contracts: &[u64], k: usize, bars: usize) -> Answer
    requires { (5 * k + 4 < length contracts.now) × (k * bars + bars ≤ length series.now)
        × (8 * bars < 2 ^ 64) }
    ensures { (weights : List ℤ) → result ≡ own_answer (contract_at bars series.now
        contracts.now weights k) }
{
    let from = k * bars;
    let to = from + bars;
    own_answer(
        &series[from..to],
        contracts[5 * k + 1],
        contracts[5 * k + 2] as usize,
        contracts[5 * k + 3] as usize,
        8 * bars,
    )
}

// The first refusal among the contracts; else all cells.
fn answer_contracts(
    series: &[f64],
    contracts: &[u64],
    weights: &[i64],
    bars: usize,
    out: usize,
    work: usize,
) -> Answer
    requires { Sized series.now contracts.now weights.now bars out work }
    ensures { result ≡ each_answered (contracts_of bars series.now contracts.now
        weights.now) (Ok (rows * bars)) }
{
    for k in 0..weights.len() {
        answer_contract(series, contracts, k, bars)?;
    }
    Ok(ROWS * bars)
}

// The answer once each contract has a group and a rule: the lengths, the slices, the weights, and the contracts.
fn answer_listed(
    series: &[f64],
    contracts: &[u64],
    weights: &[i64],
    out: usize,
    work: usize,
) -> Answer
    requires { Listed contracts.now weights.now }
    ensures { result ≡ listed_answer series.now contracts.now weights.now
        out work }
{
    let count = weights.len();
    let bars = contracts[0] as usize;
    if all_as_long(contracts, count, contracts[0]) & makes_up(series.len(), count, bars) {
        if bars > out / ROWS {
            return Err(Refusal::OutputTooShort);
        }
        if bars > work / 8 {
            return Err(Refusal::WorkTooShort);
        }
        if all_light(weights) {
            return answer_contracts(series, contracts, weights, bars, out, work);
        }
        return Err(Refusal::WeightTooLarge);
    }
    Err(Refusal::LengthsDiffer)
}

// The answer of `basket`.
pub fn answer_basket(
    series: &[f64],
    contracts: &[u64],
    weights: &[i64],
    out: usize,
    work: usize,
) -> Answer
    ensures { result ≡ basket_answer series.now contracts.now weights.now
        out work }
{
    let count = weights.len();
    if (1 <= count) & (count <= MOST_CONTRACTS) {
        if contracts.len() == 5 * count {
            if all_listed(contracts, count) {
                return answer_listed(series, contracts, weights, out, work);
            }
        }
    }
    Err(Refusal::BrokenLine)
}
