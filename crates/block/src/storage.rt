// What a block stores (document 01, "One block").
ghost use Rattle.std.specs.Prelude.{◌≡◌, pos};
ghost use Rattle.whole.specs.Inner.{In};
ghost use Rattle.grid.specs.Inner.{Termed};
ghost use Rattle.slots.specs.Units.{most_thickness};
ghost use Rattle.slots.specs.Inner.{Ends};
ghost use Rattle.block.specs.Inner.{most_area};
ghost use Rattle.block.specs.Storage.{volume_of, storage_of};

use super::units::TICKS;
use grid::Grid;
use slots::Block;
use whole::{cut_div, floor_div};

// "Volume of a fluid = floor(porosity·area·B / 4,096) litres", of an area in m² and a thickness in ticks.
// Inner: slots, area and thickness are in range.
fn volume(block: Block, area: i64, thickness: i64) -> i64
    requires ends { Ends block }
    requires fact { In (pos 0) (pos most_area) area }
    requires fact_2 { In (pos 0) (pos most_thickness) thickness }
    ensures { result ≡ volume_of block area thickness }
{
    floor_div(block.porosity * area * thickness, TICKS)
}

// "Storage rate = cut((new volume - old volume) / step)", litres a day, of an area in m² and a fluid's two thicknesses in ticks.
// Inner: terms, slots, area and thicknesses are in range.
pub fn storage(g: Grid, block: Block, area: i64, new: i64, old: i64) -> i64
    requires termed { Termed g }
    requires ends { Ends block }
    requires fact { In (pos 0) (pos most_area) area }
    requires fact_2 { In (pos 0) (pos most_thickness) new }
    requires fact_3 { In (pos 0) (pos most_thickness) old }
    ensures { result ≡ storage_of g block area new old }
{
    cut_div(volume(block, area, new) - volume(block, area, old), g.step)
}
