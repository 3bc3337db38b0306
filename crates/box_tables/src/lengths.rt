// The lengths and the counts of the tables.
ghost use Rattle.basics.specs.Meaning.Says.{Says};
ghost use Rattle.box_tables.specs.Meaning.Tables.{Lengths};
ghost use Rattle.box_tables.specs.Inner.Check.{Counts};

// Whether the tables have the lengths of n slots and of a pool.
pub fn lengths_ok(n: usize, reals: usize, map: usize, pool: usize) -> bool
    ensures { Says result (Lengths n reals map pool) }
{
    1 <= n
        && n <= basics::MOST_BOXES
        && reals == n
        && map == 3 + (n + 63) / 64
        && 1 <= pool
        && pool <= basics::MOST_ENTRIES
}

// Whether the cell size is in its limits and the entries in use are within the pool.
pub fn counts_ok(size: u64, used: usize, pool: usize) -> bool
    ensures { Says result (Counts size used pool) }
{
    cells::size_in_domain(size) && used <= pool
}
