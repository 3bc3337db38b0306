// The marks of many deferred calls: one walk over the pool, beside the cell table.
ghost use Rattle.std.specs.Prelude.{◌≡◌, ◌∷◌};
ghost use Rattle.basics.specs.Words.{[], length, get_or};
ghost use Rattle.point_batch.specs.Inner.Marks.{Walkable, MarkedTo};

use slots::Row;

// A row with its mark set.
fn set_mark(row: [u64; 2]) -> [u64; 2]
    ensures { (result ≡ get_or row 0 0 ∷ 1 ∷ []) × (length row ≡ 2) }
{
    [row[0], 1]
}

// Each cell in which something is pending is marked.
pub fn mark_all(nums: &[Row], pool: &[[u64; 2]], used: usize, cells: &mut [[u64; 2]], rows: usize)
    requires { Walkable nums.now pool.now used cells.old rows }
    ensures { MarkedTo nums.now pool.now used cells.old rows cells.new used }
{
    let mut c = 0;
    let mut j = 0;
    // a `while`: in a turn either the entry is done or the row of its cell is sought one further on
    while j < used {
        let e = pool[j];
        let row = cells[c];
        if row[0] == e[0] {
            let n = nums[e[1] as usize];
            if point_records::tag_in(n) != 0 {
                cells[c] = set_mark(row);
            }
            j += 1;
        } else {
            c += 1;
        }
    }
}
