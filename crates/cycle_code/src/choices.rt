use loc_base::Bits;

/// For each place of a design whether it is freed, and the value that it then takes.
#[derive(Clone, Copy)]
pub struct Choices<'a> {
    pub freed: &'a [bool],
    pub chosen: &'a [Bits],
}
