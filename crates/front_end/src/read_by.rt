use crate::format::Format;
use loc_base::Name;

/// What a text is read by.
#[derive(Clone, Copy, Drop)]
pub struct ReadBy<'a> {
    /// The format of the text, for a front end that reads several; one that reads a single format doesn't look at it.
    pub format: Format,
    /// The module that is the top.
    pub top: &'a Name,
    /// The input of the top that is the clock.
    pub clock: Option<&'a Name>,
}
