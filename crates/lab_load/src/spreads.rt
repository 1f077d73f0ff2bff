//! Loads that differ in their seeds alone: means and intervals of their columns.

ghost use Rattle.std.specs.Prelude.{◌≡◌, ◌-◌, ◌*◌, ◌/◌, ◌<◌, ◌≤◌, ◌^◌, length, sum_by};
ghost use Rattle.lab_load.specs.Spreads.{figure_in, or_zero, quantile_of, scatter, half_squared, IsSpread};
ghost use Rattle.lab_load.specs.Spreads.{AreSpreads};

use crate::figures::Figures;

/// Quantiles of Student's distribution at 97.5 in a hundred, in thousandths, rounded up: of 2 numbers to 31.
pub const QUANTILES: [u16; 30] = [
    12707, 4303, 3183, 2777, 2571, 2447, 2365, 2307, 2263, 2229, 2201, 2179, 2161, 2145, 2132,
    2120, 2110, 2101, 2094, 2086, 2080, 2074, 2069, 2064, 2060, 2056, 2052, 2049, 2046, 2043,
];

/// The greatest number of 39 bits.
const MOST: u128 = (1 << 39) - 1;

/// A column of loads.
#[derive(Clone, Copy, Debug, PartialEq, Eq)]
pub enum Column {
    Throughput,
    Mean,
    Most,
    Greatest,
}

/// The mean of a column, and how far at most it is from that of all seeds, where 95 in a hundred are.
#[derive(Clone, Copy, Debug, PartialEq, Eq)]
pub struct Spread {
    pub mean: u128,
    pub half: u128,
}

/// Those of loads of a rate: of the throughput in thousandths, else in hundredths.
#[derive(Clone, Copy, Debug, PartialEq, Eq)]
pub struct Spreads {
    /// Hundredths of a message.
    pub rate: u16,
    pub throughput: Spread,
    pub mean: Spread,
    pub most: Spread,
    pub greatest: Spread,
}

/// The means and intervals of some loads of a rate.
pub(crate) fn spreads_of(rate: u16, loads: &[Figures]) -> Spreads
    requires some { 2 ≤ length loads.now }
    requires few { length loads.now ≤ 1000 }
    ensures value { AreSpreads rate loads.now result }
{
    Spreads {
        rate,
        throughput: spread_of(Column::Throughput, loads),
        mean: spread_of(Column::Mean, loads),
        most: spread_of(Column::Most, loads),
        greatest: spread_of(Column::Greatest, loads),
    }
}

/// Those of one column.
fn spread_of(column: Column, loads: &[Figures]) -> Spread
    requires some { 2 ≤ length loads.now }
    requires few { length loads.now ≤ 1000 }
    ensures value { IsSpread column loads.now result }
{
    Spread {
        mean: total_of(column, loads) / loads.len() as u128,
        half: half_squared(column, loads).isqrt(),
    }
}

/// The square of the half width.
fn half_squared(column: Column, loads: &[Figures]) -> u128
    requires some { 2 ≤ length loads.now }
    requires few { length loads.now ≤ 1000 }
    ensures value { result ≡ half_squared column loads.now }
{
    let count = loads.len() as u128;
    let quantile = u128::from(quantile_of(loads.len()));
    shared_out(quantile, scatter(column, loads), count)
}

/// The square of a quantile times what is scattered, by how many there are.
fn shared_out(quantile: u128, scattered: u128, count: u128) -> u128
    requires quantile { quantile ≤ 12707 }
    requires scattered { scattered ≤ 1000000 * 2 ^ 78 }
    requires some { 2 ≤ count }
    requires few { count ≤ 1000 }
    ensures value { result ≡ quantile * quantile * scattered / (1000000 * (count * count * (count - 1))) }
{
    let parts = 1000000 * (count * count * (count - 1));
    quantile * quantile * scattered / parts
}

/// How many numbers times the sum of their squares, less the square of their sum.
fn scatter(column: Column, loads: &[Figures]) -> u128
    requires few { length loads.now ≤ 1000 }
    ensures value { result ≡ scatter column loads.now }
    ensures within { result ≤ 1000000 * 2 ^ 78 }
{
    let count = loads.len() as u128;
    scatter_of(count, squares_of(column, loads), total_of(column, loads))
}

/// So many numbers, of which these are the sum of the squares and the sum.
fn scatter_of(count: u128, squares: u128, total: u128) -> u128
    requires few { count ≤ 1000 }
    requires squares { squares ≤ 1000 * 2 ^ 78 }
    requires total { total ≤ 1000 * 2 ^ 39 }
    ensures value { result ≡ count * squares - total * total }
    ensures within { result ≤ 1000000 * 2 ^ 78 }
{
    let all = count * squares;
    all.saturating_sub(total * total)
}

/// The sum of a column.
fn total_of(column: Column, loads: &[Figures]) -> u128
    requires few { length loads.now ≤ 1000 }
    ensures value { result ≡ sum_by (figure_in column) loads.now }
    ensures within { result ≤ 1000 * 2 ^ 39 }
{
    let mut total = 0;
    for figures in loads {
        total += figure_in(column, figures);
    }
    total
}

/// The sum of its squares.
fn squares_of(column: Column, loads: &[Figures]) -> u128
    requires few { length loads.now ≤ 1000 }
    ensures value { result ≡ sum_by (λ figures. figure_in column figures * figure_in column figures) loads.now }
    ensures within { result ≤ 1000 * 2 ^ 78 }
{
    let mut total = 0;
    for figures in loads {
        total += square_in(column, figures);
    }
    total
}

/// The square of the number of a load.
fn square_in(column: Column, figures: &Figures) -> u128
    ensures value { result ≡ figure_in column figures.now * figure_in column figures.now }
    ensures within { result < 2 ^ 78 }
{
    let number = figure_in(column, figures);
    number * number
}

/// The number of a load in a column.
fn figure_in(column: Column, figures: &Figures) -> u128
    ensures value { result ≡ figure_in column figures.now }
    ensures within { result < 2 ^ 39 }
{
    match column {
        Column::Throughput => figures.throughput.min(MOST),
        Column::Mean => figures.mean.min(MOST),
        Column::Most => 100 * u128::from(or_zero(figures.most)),
        Column::Greatest => 100 * u128::from(figures.greatest),
    }
}

fn or_zero(number: Option<u32>) -> u32
    ensures value { result ≡ or_zero number }
{
    number.unwrap_or(0)
}

/// So many standard errors hold all but 25 in a thousand of so many numbers' means, in thousandths.
fn quantile_of(count: usize) -> u16
    requires some { 2 ≤ count }
    ensures value { result ≡ quantile_of count }
    ensures within { result ≤ 12707 }
{
    QUANTILES[(count - 2).min(29)]
}
