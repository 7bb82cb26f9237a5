// Positions by a desk's rank table: the table (`table`), ranks looked up in it (`lookup`), the answer, and how the
// cells are written.
#![tactic(auto)]

mod lookup;
mod table;

ghost use Rattle.std.specs.Prelude.{◌≡◌, ◌*◌, ◌≤◌, length};
ghost use Rattle.cells.specs.Line.{line};
ghost use Rattle.cells.specs.Written.{Writing};
ghost use Rattle.cells.specs.inner.Touched.{Touched};
ghost use Rattle.checks.specs.inner.Due.{Priced};
ghost use Rattle.rules_rank_table.specs.Table.{rows_read};
ghost use Rattle.rules_rank_table.specs.RankTable.{rank_table_line, rank_table_answer};
ghost use Rattle.rules_rank_table.specs.inner.Stages.{Known, TableRows};

use calls::Answer;

// The answer of `rank_table_positions`. The table is looked at where there are cells to write.
pub fn answer_rank_table(series: &[f64], n: usize, rows: &[i32], out: usize, work: usize) -> Answer
    ensures { result ≡ rank_table_answer series.now n rows.now out work }
{
    let due = checks::answer_window_with_work(series, n, out, work);
    if calls::has_cells(due) {
        table::check_table(rows, due)
    } else {
        due
    }
}

// Writes each bar's position: a count of means picks it. The rows of `work` are the means and the positions.
// A generic loop for this one and that of rules_rank would take the cast with its condition, and be no plainer.
fn write_by_count(series: &[f64], work: &[f64], n: usize, rows: &[i32], out: &mut [i32])
    requires table_rows { TableRows n (rows_read rows.now) series.now work.now }
    requires series_in_bounds { length series.now ≤ length out.old }
    ensures { Writing (length series.now)
        (rank_table_line (rows_read rows.now) n (line series.now)) out.old
        out.new }
{
    let bars = series.len();
    let first = rules_held::fill_flat(out, 2 * n - 2, bars);
    for i in first..bars {
        let below = ranks::count_below(work, i + 1 - n, n - 1, work[i]);
        out[i] = work[bars + below] as i32;
    }
}

// Writes each bar's position. The first two rows of `work` are used.
pub fn write_rank_table(series: &[f64], n: usize, rows: &[i32], out: &mut [i32], work: &mut [f64])
    requires priced { Priced 2 n series.now (length out.old) (length work.old) }
    requires known { Known (rows_read rows.now) }
    ensures { Writing (length series.now)
        (rank_table_line (rows_read rows.now) n (line series.now)) out.old
        out.new
        × Touched (2 * length series.now) work.old work.new }
{
    let bars = series.len();
    if (n > 1) & (bars > 2 * n - 2) {
        window_means::write_means_of_prices(series, n, work);
        lookup::write_positions(rows, n, &mut work[bars..]);
        write_by_count(series, work, n, rows, out);
    } else {
        rules_held::fill_flat(out, bars, bars);
    }
}
