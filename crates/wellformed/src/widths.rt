// Widths and areas of a case's blocks (document 01, "A lateral face": "widths L1, L2 along the line and W across").
ghost use Rattle.std.specs.Prelude.{◌≡◌};
ghost use Rattle.wellformed.specs.Widths.{along_at, face_at, area_at};
ghost use Rattle.wellformed.specs.Inner.{Placed, Onward};

use flow::lateral::Face;
use grid::place::Place;
use grid::units::NEXT_COLUMN;

// The width of a block along an axis, metres: of its column along a row, of its row along a column. Inner: the place has widths.
pub fn along(columns: &[i64], rows: &[i64], place: Place, axis: usize) -> i64
    requires { Placed columns.now rows.now place }
    ensures { result ≡ along_at columns.now rows.now place axis }
{
    let column = place.column;
    let row = place.row;
    if axis == NEXT_COLUMN {
        columns[column]
    } else {
        rows[row]
    }
}

// The face between a block and the next one along an axis, its widths in metres. Inner: both places have widths.
pub fn face(columns: &[i64], rows: &[i64], place: Place, axis: usize) -> Face
    requires placed { Placed columns.now rows.now place }
    requires onward { Onward columns.now rows.now place axis }
    ensures { result ≡ face_at columns.now rows.now place axis }
{
    let column = place.column;
    let row = place.row;
    if axis == NEXT_COLUMN {
        return Face {
            low: columns[column],
            high: columns[column + 1],
            across: rows[row],
        };
    }
    Face {
        low: rows[row],
        high: rows[row + 1],
        across: columns[column],
    }
}

// The area of a block, m². Inner: the place has widths.
#[tactic(auto, unfolding(crate::specs::Widths::area_at))]
pub fn area(columns: &[i64], rows: &[i64], place: Place) -> i64
    requires { Placed columns.now rows.now place }
    ensures { result ≡ area_at columns.now rows.now place }
{
    let column = place.column;
    let row = place.row;
    columns[column] * rows[row]
}
