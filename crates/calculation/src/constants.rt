// The constants of document 01: by tube, boards, soil, family, enclosure and wall; and the length factor's table.
ghost use Rattle.std.specs.Prelude.{◌<◌, ◌≤◌};
ghost use Rattle.basis.specs.Figure.{Is};
ghost use Rattle.kinds.specs.Kinds.{family_number, tube_number, boards_number, enclosure_number, wall_number, soil_number};
ghost use Rattle.section5.specs.Section5.{factor_at, family_place, spacing_row, tie_column, length_factor};
ghost use Rattle.calculation.specs.Whole.{area, modulus, radius, stiffness, board, rail, soil_factor, overhang, tie_base, slender_limit, height_limit, shape_unit};

use job::bounded::BoundedJob;
use kinds::{Boards, Enclosure, Family, Soil, Tube, Wall};

pub(crate) fn area_of(tube: Tube) -> u64
    ensures { Is result (area (tube_number tube)) 489 × (0 < result) }
{
    match tube {
        Tube::Tube48 => 489,
        Tube::Tube51 => 452,
    }
}

pub(crate) fn modulus_of(tube: Tube) -> u64
    ensures { Is result (modulus (tube_number tube)) 5130 × (0 < result) }
{
    match tube {
        Tube::Tube48 => 5080,
        Tube::Tube51 => 5130,
    }
}

// i, tenths of a mm.
pub fn tube_radius(tube: Tube) -> u64
    ensures { Is result (radius (tube_number tube)) 170 × (158 ≤ result) }
{
    match tube {
        Tube::Tube48 => 158,
        Tube::Tube51 => 170,
    }
}

// The same of a tube's number, whatever it is.
pub fn radius_of(tube: u32) -> u64
    ensures { Is result (radius tube) 170 × (158 ≤ result) }
{
    tube_radius(Tube::from(tube))
}

pub(crate) fn stiffness_of(tube: Tube) -> u64
    ensures { Is result (stiffness (tube_number tube)) 26944800000 × (0 < result) }
{
    match tube {
        Tube::Tube48 => 206000 * 121900,
        Tube::Tube51 => 206000 * 130800,
    }
}

pub(crate) fn board_of(boards: Boards) -> u64
    ensures { Is result (board (boards_number boards)) 350 }
{
    match boards {
        Boards::Steel => 300,
        Boards::Bamboo | Boards::Timber => 350,
    }
}

pub(crate) fn rail_of(boards: Boards) -> u64
    ensures { Is result (rail (boards_number boards)) 140 }
{
    match boards {
        Boards::Steel => 110,
        Boards::Bamboo | Boards::Timber => 140,
    }
}

pub fn soil_factor(soil: Soil) -> u64
    ensures { Is result (soil_factor (soil_number soil)) 10 }
{
    match soil {
        Soil::Gravel | Soil::Sand | Soil::Fill => 4,
        Soil::Clay => 5,
        Soil::Rock => 10,
    }
}

pub(crate) fn overhang_of(family: Family) -> u64
    ensures { Is result (overhang (family_number family)) 30 }
{
    match family {
        Family::DoubleRow => 30,
        Family::SingleRow => 0,
    }
}

pub(crate) fn tie_base(family: Family) -> u64
    ensures { Is result (tie_base (family_number family)) 5000 }
{
    match family {
        Family::DoubleRow => 5000,
        Family::SingleRow => 3000,
    }
}

pub(crate) fn slender_limit(family: Family) -> u64
    ensures { Is result (slender_limit (family_number family)) 230 }
{
    match family {
        Family::DoubleRow => 210,
        Family::SingleRow => 230,
    }
}

pub(crate) fn height_limit(family: Family) -> u64
    ensures { Is result (height_limit (family_number family)) 5000 }
{
    match family {
        Family::DoubleRow => 5000,
        Family::SingleRow => 2400,
    }
}

pub(crate) fn shape_unit(enclosure: Enclosure, wall: Wall) -> u64
    ensures { Is result (shape_unit (enclosure_number enclosure) (wall_number wall)) 156 }
{
    match (enclosure, wall) {
        (Enclosure::Open, _) => 100,
        (_, Wall::Closed) => 120,
        (_, Wall::Open) => 156,
    }
}

// The length factor, hundredths: by family, spacing row and tie column, the form that the paper requires.
const FACTORS: [[[u64; 2]; 3]; 2] = [
    [[150, 170], [155, 175], [160, 180]],
    [[180, 200], [180, 200], [180, 200]],
];

#[tactic(auto, using(basis::proofs::Fits::is_most, section5::proofs::LengthFactor::factor_at_most), unfolding(section5::specs::Section5::factor_at, section5::specs::Section5::factors))]
fn factor_at(family: usize, row: usize, column: usize) -> u64
    requires { (family < 2) × (row < 3) × (column < 2) }
    ensures { Is result (factor_at family row column) 200 }
{
    FACTORS[family][row][column]
}

fn family_place(family: Family) -> usize
    ensures { Is result (family_place (family_number family)) 1 }
{
    match family {
        Family::DoubleRow => 0,
        Family::SingleRow => 1,
    }
}

fn spacing_row(family: Family, lb: u32) -> usize
    ensures { Is result (spacing_row (family_number family) lb) 2 }
{
    match family {
        Family::DoubleRow if lb < 130 => 0,
        Family::DoubleRow if lb < 155 => 1,
        Family::DoubleRow => 2,
        Family::SingleRow => 0,
    }
}

fn tie_column(ties: u32) -> usize
    ensures { Is result (tie_column ties) 1 }
{
    if ties < 3 { 0 } else { 1 }
}

#[tactic(auto, unfolding(section5::specs::Section5::length_factor))]
pub(crate) fn factor_of(j: &BoundedJob) -> u64
    ensures { Is result (length_factor j.now.family j.now.lb j.now.ties) 200 }
{
    factor_at(
        family_place(j.family),
        spacing_row(j.family, j.lb),
        tie_column(j.ties),
    )
}
