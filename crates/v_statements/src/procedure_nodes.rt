//! The nodes of always and initial blocks.
ghost use Rattle.std.specs.Prelude.{◌≡◌};
ghost use Rattle.v_syntax.specs.StatementTree.{statement_of};
ghost use Rattle.v_syntax.specs.ItemTree.{item_of, sensitivity_of, always_item, initial_item};

use v_syntax::{Item, Sensitivity, Site, Statement};

pub fn always(site: Site, sensitivity: Sensitivity, body: Statement) -> Item
    ensures { item_of result ≡ always_item site (sensitivity_of sensitivity) (statement_of body) }
{
    Item::Always {
        site,
        sensitivity,
        body,
    }
}

pub fn initial(site: Site, body: Statement) -> Item
    ensures { item_of result ≡ initial_item site (statement_of body) }
{
    Item::Initial { site, body }
}
