// The pair rules: the answer for two nodes of a region, and what each answer means in paths and constructs.
// Definitions and lemmas, in specs/ and proofs/: Unexcluded is what a reader must believe, the rules in words; Answer, Size, Numbers and Sheet compute it; AnswerLaws
// and SizeLaws say that the two agree; Starred holds known answers, MoreEdgesLaws that a chart with more edges has no more nevers. The types of an
// answer and of a size are here, since the definitions speak of them; no function is.
#![tactic(auto)]

// The teams that an answer is for (02, Note 10): those of any size, or those of just so many threads.
#[derive(Clone, Copy)]
pub enum Size {
    Any,
    Of(usize),
}

impl Size {
    pub const LEAST: usize = 1;

    pub const MOST: usize = 1024;
}

// An answer is the number of the first rule that makes the nodes nonconcurrent, 0 where none does; a sheet also says where a barrier is.
#[derive(Clone, Copy)]
pub struct Answer {
    pub number: u8,
}

impl Answer {
    pub const CONCURRENT: u8 = 0;

    pub const NO_COMMON_PHASE: u8 = 1;

    pub const MASTER: u8 = 2;

    pub const SINGLE: u8 = 3;

    pub const ORDERED: u8 = 4;

    pub const SECTION: u8 = 5;

    pub const ALONE: u8 = 6;

    pub const MISSING: u8 = 7;

    pub const BARRIER: u8 = 255;
}
