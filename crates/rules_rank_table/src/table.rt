// A desk's rank table: the rows that are read, what they cover, and whether the table is taken.
ghost use Rattle.std.specs.Prelude.{◌≡◌, map};
ghost use Rattle.values.specs.Accepted.{all};
ghost use Rattle.rules_rank_table.specs.Table.{rows_read, covers, cover_count, is_position, table_checked};
ghost use Rattle.rules_rank_table.specs.Table.{position_for};
ghost use Rattle.rules_rank_table.specs.inner.Stages.{row_of, Counted};

use calls::{Answer, Refusal};

// Whether each number from -100 to 100 is covered at most once, and whether each is covered at least once.
#[derive(Clone, Copy)]
pub struct Coverage {
    pub once: bool,
    pub some: bool,
}

// The rows that are read: finished ones, and at most 16.
pub fn rows_read(numbers: &[i32]) -> &[[i32; 3]]
    ensures { map row_of result.now ≡ rows_read numbers.now }
{
    let (rows, _) = numbers.as_chunks();
    &rows[..rows.len().min(16)]
}

// Whether a row covers k.
pub fn row_covers(row: &[i32; 3], k: i32) -> bool
    ensures { result ≡ covers k (row_of row.now) }
{
    (row[0] <= k) & (k <= row[1])
}

// How many rows cover k.
pub fn cover_count(rows: &[[i32; 3]], k: i32) -> usize
    ensures { result ≡ cover_count k (map row_of rows.now) }
{
    rows.iter().filter(|row| row_covers(row, k)).count()
}

// How often the numbers from -100 to 100 are covered.
pub fn count_covers(rows: &[[i32; 3]]) -> Coverage
    ensures { Counted (map row_of rows.now) 201 result.once result.some }
{
    let mut once = true;
    let mut some = true;
    for k in -100..=100 {
        let count = cover_count(rows, k);
        once &= count <= 1;
        some &= count >= 1;
    }
    Coverage { once, some }
}

// Whether a row's position is -1, 0 or 1.
pub fn position_known(row: &[i32; 3]) -> bool
    ensures { result ≡ is_position (row_of row.now).position }
{
    (-1 <= row[2]) & (row[2] <= 1)
}

// Whether each row's position is known.
pub fn positions_known(rows: &[[i32; 3]]) -> bool
    ensures { result ≡ all (λ row. is_position row.position) (map row_of rows.now) }
{
    rows.iter().all(position_known)
}

// The refusals of the table, then what is next.
pub fn check_table(numbers: &[i32], next: Answer) -> Answer
    ensures { result ≡ table_checked (rows_read numbers.now) next }
{
    let rows = rows_read(numbers);
    let covered = count_covers(rows);
    let known = positions_known(rows);
    let unknown = checks::unless_refused(known, Refusal::PositionUnknown, next);
    let uncovered = checks::unless_refused(covered.some, Refusal::NotCovered, unknown);
    checks::unless_refused(covered.once, Refusal::CoveredTwice, uncovered)
}

// The position of the first row that covers k, and 0 where none does.
pub fn position_for(rows: &[[i32; 3]], k: i32) -> i32
    ensures { result ≡ position_for k (map row_of rows.now) }
{
    for row in rows {
        if row_covers(row, k) {
            return row[2];
        }
    }
    0
}
