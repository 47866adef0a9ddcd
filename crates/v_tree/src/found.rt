/// What a reader found: a tree, its number of levels, and the place behind its tokens.
#[derive(Drop)]
pub struct Found<T> {
    pub tree: T,
    pub levels: u32,
    pub end: usize,
}
