ghost use Rattle.std.specs.Prelude.{◌≡◌, ◌<◌, length, map, get_or, All, IfOk};
ghost use Rattle.node_map.specs.Entries.{entry_at};

use loc_base::{Items, NoMemory};
use std::alloc::Global;

/// A signal, and a node that it has or had.
#[derive(Clone, Copy, Debug)]
pub struct Entry {
    pub signal: u32,
    pub node: u32,
}

/// The entry of a number.
pub(crate) fn nth(entries: &[Entry], k: usize) -> Entry
    requires { k < length entries.now }
    ensures { result ≡ get_or entries.now k result }
{
    entries[k]
}

/// What stands at some signals.
#[tactic(auto, using(crate::proofs::EntrySteps::entries_steps))]
pub fn entries_at(alloc: Global, nodes: &[u32], signals: &[u32]) -> Result<Items<Entry>, NoMemory>
    requires { All (λ s. s < length nodes.now) signals.now }
    ensures { IfOk result (λ entries. entries ≡ map (entry_at nodes.now) signals.now) }
{
    let mut entries = Items::new(alloc);
    for i in 0..signals.len() {
        let signal = signals[i];
        let node = nodes[signal as usize];
        entries.push(Entry { signal, node })?;
    }
    Ok(entries)
}
