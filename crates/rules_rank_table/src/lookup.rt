// Ranks looked up in the table, one for each number of means below.
ghost use Rattle.std.specs.Prelude.{◌≡◌, ◌-◌, ◌≤◌, length, map};
ghost use Rattle.cells.specs.Written.{Writing};
ghost use Rattle.rules_rank_table.specs.Table.{rows_read};
ghost use Rattle.rules_rank_table.specs.RankTable.{table_position};
ghost use Rattle.rules_rank_table.specs.inner.Stages.{row_of, Looked, position_cell};

// The position for `below` of `others` means. A rank of -0.0 is made +0.0, which can be cast.
pub fn table_position(rows: &[[i32; 3]], below: usize, others: usize) -> i32
    requires { Looked below others }
    ensures { result ≡ table_position (map row_of rows.now) below others }
{
    let rank = rules_rank::whole_rank(below, others) + 0.0;
    crate::table::position_for(rows, rank as i32)
}

// Writes the position for each number of means below, of n - 1, as f64. It is not one with that of rules_rank: the two
// share only the loop, and a closure in it would be no plainer.
pub fn write_positions(numbers: &[i32], n: usize, positions: &mut [f64])
    requires { Looked 0 (n - 1) × (n ≤ length positions.old) }
    ensures { Writing n (position_cell (rows_read numbers.now) n) positions.old
        positions.new }
{
    let rows = crate::table::rows_read(numbers);
    for below in 0..n {
        positions[below] = table_position(rows, below, n - 1) as f64;
    }
}
