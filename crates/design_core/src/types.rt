use loc_base::Items;

/// An order in which the drivers of a design can be executed: their numbers, each once, the one to be executed first
/// in front.
pub type Order = Items<u32>;
