/// When what a clocked block leaves for its registers counts.
#[derive(Clone, Copy, Debug)]
pub enum Turn {
    /// Where the node of a reset is 1.
    When(u32),
    /// Where the node of a reset is 0.
    Unless(u32),
    Always,
}
