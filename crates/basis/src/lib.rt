// What every layer is built on: the refusals of the papers, with a test that refuses, and a field's range.
#![tactic(auto)]

ghost use Rattle.std.specs.Prelude.{◌≡◌};
ghost use Rattle.basis.specs.Range.{within};
ghost use Rattle.basis.specs.Refusal.{number as number_of, place as place_of, unless, nothing};
ghost use Rattle.basis.specs.declared.Refusal.TheVariants.{FieldRange};

// Why nothing is answered, with its place: those of document 01, then those of document 02; specs/Refusal.antt says what the place of each is.
#[derive(Clone, Copy, Debug, PartialEq, Eq)]
pub enum Refusal {
    SheetLength(u64),
    SheetEntry(u64),
    FieldRange(u64),
    Contradiction(u64),
    UnfitWall(u64),
    Damaged(u64),
    Trailing(u64),
    TooShort(u64),
    BookDamaged(u64),
    BookCount(u64),
    BookRow(u64),
    Disorder(u64),
    CellWindow(u64),
    CellRecord(u64),
    CellLength(u64),
    SegmentCount(u64),
    SegmentRefused(u64),
    SegmentDisagrees(u64),
    TimberInput(u64),
    Allowance(u64),
}

impl Refusal {
    // The number that the papers give it.
    pub fn number(self) -> u32
        ensures { result ≡ number_of self }
    {
        match self {
            Refusal::SheetLength(_) => 1,
            Refusal::SheetEntry(_) => 2,
            Refusal::FieldRange(_) => 3,
            Refusal::Contradiction(_) => 4,
            Refusal::UnfitWall(_) => 5,
            Refusal::Damaged(_) => 6,
            Refusal::Trailing(_) => 7,
            Refusal::TooShort(_) => 8,
            Refusal::BookDamaged(_) => 9,
            Refusal::BookCount(_) => 10,
            Refusal::BookRow(_) => 11,
            Refusal::Disorder(_) => 12,
            Refusal::CellWindow(_) => 13,
            Refusal::CellRecord(_) => 14,
            Refusal::CellLength(_) => 15,
            Refusal::SegmentCount(_) => 16,
            Refusal::SegmentRefused(_) => 17,
            Refusal::SegmentDisagrees(_) => 18,
            Refusal::TimberInput(_) => 19,
            Refusal::Allowance(_) => 20,
        }
    }

    pub fn place(self) -> u64
        ensures { result ≡ place_of self }
    {
        match self {
            Refusal::SheetLength(place)
            | Refusal::SheetEntry(place)
            | Refusal::FieldRange(place)
            | Refusal::Contradiction(place)
            | Refusal::UnfitWall(place)
            | Refusal::Damaged(place)
            | Refusal::Trailing(place)
            | Refusal::TooShort(place)
            | Refusal::BookDamaged(place)
            | Refusal::BookCount(place)
            | Refusal::BookRow(place)
            | Refusal::Disorder(place)
            | Refusal::CellWindow(place)
            | Refusal::CellRecord(place)
            | Refusal::CellLength(place)
            | Refusal::SegmentCount(place)
            | Refusal::SegmentRefused(place)
            | Refusal::SegmentDisagrees(place)
            | Refusal::TimberInput(place)
            | Refusal::Allowance(place) => place,
        }
    }
}

// Refuses unless the test passes.
pub fn ensure(stands: bool, refusal: Refusal) -> Result<(), Refusal>
    ensures { result ≡ unless stands refusal nothing }
{
    if stands { Ok(()) } else { Err(refusal) }
}

// Refuses a field that is not from low to high.
pub fn in_range(field: u64, low: u32, high: u32, x: u32) -> Result<(), Refusal>
    ensures { result ≡ unless (within low high x) (FieldRange field) nothing }
{
    ensure((low..=high).contains(&x), Refusal::FieldRange(field))
}
