// Rows of a grid: two numbers to a block, fresh before salt, in block order.
ghost use Rattle.std.specs.Prelude.{◌≡◌, ◌+◌, ◌*◌, ◌≤◌, length};
ghost use Rattle.books.specs.Inner.{pair_of, put_of};

use block::Fluids;
use grid::units::MOST_BLOCKS;

// Two numbers for each block of the largest grid.
pub const ROW: usize = 2 * MOST_BLOCKS;

// The two numbers of a block. Inner: the row reaches so far.
pub fn pair(row: &[i64], block: usize) -> Fluids
    requires { 2 * block + 2 ≤ length row.now }
    ensures { result ≡ pair_of row.now block }
{
    Fluids {
        fresh: row[2 * block],
        salt: row[2 * block + 1],
    }
}

// Puts in the two numbers of a block. Inner: the row reaches so far.
pub fn put(row: &mut [i64], block: usize, both: Fluids)
    requires { 2 * block + 2 ≤ length row.old }
    ensures { row.new ≡ put_of row.old block both }
{
    let fresh = both.fresh;
    let salt = both.salt;
    row[2 * block] = fresh;
    row[2 * block + 1] = salt;
}
