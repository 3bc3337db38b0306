// `maintain` of a point grid: the moves and removals of a frame are applied.
// Beside the answer two counts: the objects that have moved, and those that were removed.
#![tactic(auto)]

#[derive(Clone, Copy)]
pub struct Maintained {
    pub answer: u32,
    pub moved: u32,
    pub removed: u32,
}
