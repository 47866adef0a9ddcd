use front_end::Format;
use loc_base::Name;

/// The texts that a command reads, by their names, and how a text is read.
#[derive(Drop)]
pub struct Texts {
    /// The name of the design's text.
    pub design: String,
    /// The format of the design's text.
    pub format: Format,
    /// The module that is the top.
    pub top: Name,
    /// The names of the traces' texts.
    pub traces: Vec<String>,
    /// The path of the scope in which the ports stand in each trace's text, as `tb.golden`, where it is named.
    pub scope: Option<Name>,
    /// Whether unknown bits of inputs are read as 0.
    pub zero_inputs: bool,
}
