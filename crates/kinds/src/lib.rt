// The kinds that the papers number: family, tube, boards, enclosure, wall and soil.
#![tactic(auto)]

ghost use Rattle.std.specs.Prelude.{◌≡◌};
ghost use Rattle.kinds.specs.Kinds.{family_number, tube_number, boards_number, enclosure_number, wall_number, soil_number, family_of, tube_of, boards_of, enclosure_of, wall_of, soil_of};

// How many rows of poles a scaffold stands on.
#[derive(Clone, Copy, Debug, PartialEq, Eq)]
pub enum Family {
    DoubleRow = 1,
    SingleRow = 2,
}

// The tube, by its diameter in mm: 48 by 3.5 and 51 by 3.0.
#[derive(Clone, Copy, Debug, PartialEq, Eq)]
pub enum Tube {
    Tube48 = 1,
    Tube51 = 2,
}

// What the decks are boarded with.
#[derive(Clone, Copy, Debug, PartialEq, Eq)]
pub enum Boards {
    Steel = 1,
    Bamboo = 2,
    Timber = 3,
}

// How far the scaffold is closed against wind.
#[derive(Clone, Copy, Debug, PartialEq, Eq)]
pub enum Enclosure {
    Open = 1,
    HalfClosed = 2,
    FullyClosed = 3,
}

// The wall behind: closed, or open, framed or pierced.
#[derive(Clone, Copy, Debug, PartialEq, Eq)]
pub enum Wall {
    Closed = 1,
    Open = 2,
}

// What the pad stands on; rock stands for concrete too.
#[derive(Clone, Copy, Debug, PartialEq, Eq)]
pub enum Soil {
    Gravel = 1,
    Sand = 2,
    Fill = 3,
    Clay = 4,
    Rock = 5,
}

// A number is read as the tables of document 01 read it, which ask for the first kinds and give every other number what the last has, but soil 0 what the first has: examining a job refuses a number that no kind has before anything is built on it. Each kind has these conversions by hand: an impl that a macro of the repository writes is refused, and a generic one would need each kind's table all the same.
impl From<u32> for Family {
    ghost from_gives = { λ number kind. kind ≡ family_of number };

    fn from(number: u32) -> Family {
        match number {
            1 => Family::DoubleRow,
            _ => Family::SingleRow,
        }
    }
}

impl From<u32> for Tube {
    ghost from_gives = { λ number kind. kind ≡ tube_of number };

    fn from(number: u32) -> Tube {
        match number {
            1 => Tube::Tube48,
            _ => Tube::Tube51,
        }
    }
}

impl From<u32> for Boards {
    ghost from_gives = { λ number kind. kind ≡ boards_of number };

    fn from(number: u32) -> Boards {
        match number {
            1 => Boards::Steel,
            2 => Boards::Bamboo,
            _ => Boards::Timber,
        }
    }
}

impl From<u32> for Enclosure {
    ghost from_gives = { λ number kind. kind ≡ enclosure_of number };

    fn from(number: u32) -> Enclosure {
        match number {
            1 => Enclosure::Open,
            2 => Enclosure::HalfClosed,
            _ => Enclosure::FullyClosed,
        }
    }
}

impl From<u32> for Wall {
    ghost from_gives = { λ number kind. kind ≡ wall_of number };

    fn from(number: u32) -> Wall {
        match number {
            1 => Wall::Closed,
            _ => Wall::Open,
        }
    }
}

impl From<u32> for Soil {
    ghost from_gives = { λ number kind. kind ≡ soil_of number };

    fn from(number: u32) -> Soil {
        match number {
            0 | 1 => Soil::Gravel,
            2 => Soil::Sand,
            3 => Soil::Fill,
            4 => Soil::Clay,
            _ => Soil::Rock,
        }
    }
}

impl From<Family> for u32 {
    ghost from_gives = { λ kind number. number ≡ family_number kind };

    fn from(kind: Family) -> u32 {
        // By `as`, here and below: nothing else reads the number that an enum's case is given.
        kind as u32
    }
}

impl From<Tube> for u32 {
    ghost from_gives = { λ kind number. number ≡ tube_number kind };

    fn from(kind: Tube) -> u32 {
        kind as u32
    }
}

impl From<Boards> for u32 {
    ghost from_gives = { λ kind number. number ≡ boards_number kind };

    fn from(kind: Boards) -> u32 {
        kind as u32
    }
}

impl From<Enclosure> for u32 {
    ghost from_gives = { λ kind number. number ≡ enclosure_number kind };

    fn from(kind: Enclosure) -> u32 {
        kind as u32
    }
}

impl From<Wall> for u32 {
    ghost from_gives = { λ kind number. number ≡ wall_number kind };

    fn from(kind: Wall) -> u32 {
        kind as u32
    }
}

impl From<Soil> for u32 {
    ghost from_gives = { λ kind number. number ≡ soil_number kind };

    fn from(kind: Soil) -> u32 {
        kind as u32
    }
}
