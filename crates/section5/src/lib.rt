// What judging tells of a job: the types of document 01's answer. Their meaning stands in specs/; nothing here is worked out.
#![tactic(auto)]

// How many checks there are.
pub const CHECKS: usize = 12;

// What a report says of heights: not an Option, since a report without the line is not one whose line says none.
#[derive(Clone, Copy)]
pub enum Heights {
    // no line: heights are not asked for
    NoLine,
    // the poles stand at no height
    Nowhere,
    // the stability height and the permitted height, cm
    Both(u64, u64),
}

// What is told of a job that is accepted: each place of a row is fixed by its check, and the rows are held by value, as the paper requires.
#[derive(Clone, Copy)]
pub struct Judgement {
    pub verdicts: [u8; CHECKS],
    pub figures: [u64; CHECKS],
    pub heights: Heights,
    pub wk: u64,
    pub mw: u64,
    // Z in tenths
    pub z: u64,
}
