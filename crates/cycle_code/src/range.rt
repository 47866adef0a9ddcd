/// Some instructions by their numbers: a run of them begins at `from`, and goes down until the number is at most `to`.
#[derive(Clone, Copy, Drop)]
pub struct Range {
    pub from: usize,
    pub to: usize,
}
