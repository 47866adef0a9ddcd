//! Which chapter an item belongs to, by its first token.
ghost use Rattle.std.specs.Prelude.{◌≡◌};
ghost use Rattle.v_parser.specs.ItemKinds.{item_kind};

use v_tree::Terminal;

/// The chapters of items.
pub enum ItemKind {
    /// Ports, nets, registers, integers, genvars and parameters.
    Declaration,
    /// Continuous assignments, gates and module instances.
    Structure,
    /// `always` and `initial`.
    Procedure,
    /// Generate regions, loops and conditions.
    Generated,
    /// No item begins so.
    Nothing,
}

/// The chapter of the items that begin with a token of that mark.
pub fn item_kind(mark: Terminal) -> ItemKind
    ensures { result ≡ item_kind mark }
{
    match mark {
        Terminal::Input
        | Terminal::Output
        | Terminal::Wire
        | Terminal::Reg
        | Terminal::Integer
        | Terminal::Genvar
        | Terminal::Parameter
        | Terminal::Localparam => ItemKind::Declaration,
        Terminal::Assign
        | Terminal::And
        | Terminal::Or
        | Terminal::Nand
        | Terminal::Nor
        | Terminal::Xor
        | Terminal::Xnor
        | Terminal::Buf
        | Terminal::Not
        | Terminal::Name => ItemKind::Structure,
        Terminal::Always | Terminal::Initial => ItemKind::Procedure,
        Terminal::Generate | Terminal::For | Terminal::If => ItemKind::Generated,
        _ => ItemKind::Nothing,
    }
}
