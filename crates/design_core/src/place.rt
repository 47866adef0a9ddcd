use loc_base::Name;

/// Where a value is assigned or computed.
#[derive(Clone, Copy, Debug, PartialEq, Eq)]
pub enum PlaceKind {
    /// A continuous assignment.
    Assign,
    /// A procedural assignment, after loops are unrolled.
    Step,
    /// An output of a gate.
    Gate,
    /// An output port connection of a module instance.
    PortOut,
    /// An AND of an AIGER file.
    And,
    /// The condition of an `if`, or the subject of a `case`.
    Cond,
    /// An input port connection of a module instance.
    PortIn,
}

/// A place: one assignment of the elaborated design, whose value a suspect set may choose in each cycle.
pub struct Place {
    pub kind: PlaceKind,
    /// The width of the left side in bits, 1 to 128.
    pub width: u8,
    /// The number of the place's first token in the text.
    pub site: u32,
    /// The number of the first token of the item that the place stands in.
    pub home: u32,
    /// For a gate or an output connection, the least place of the same copy of the gate or module instance; else 0.
    pub copy: u32,
    /// The line of the place's first token, from 1.
    pub line: u32,
    /// The module whose text the place stands in.
    pub module: Name,
    /// The path of the gate or instance itself, else of the scope.
    pub path: Name,
    /// The first signal, from the left, that the left side names; for an array, that of its least address.
    pub signal: u32,
}

// A `drop` is written out, so that it is proved once, here: a derived one is proved again by each crate that lets a value go.
impl Drop for Place {
    fn drop(self) {
        let Place {
            kind: _,
            width: _,
            site: _,
            home: _,
            copy: _,
            line: _,
            module: _,
            path: _,
            signal: _,
        } = self;
    }
}
