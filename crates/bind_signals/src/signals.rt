//! Signals as their declarations say (IEEE 1364-2005, 4.2, 4.9, 12.3 and 12.5).
ghost use Rattle.std.specs.Prelude.{◌≡◌, ◌≤◌, IfOk, option_map};
ghost use Rattle.loc_base.specs.Name.{IsName};
ghost use Rattle.v_sizes.specs.Word.{word};
ghost use Rattle.v_hierarchy.specs.Stands.{IsRange};
ghost use Rattle.v_binding.specs.Signals.{path_in, signal_of, kind_in, kind_of, word_path};

use bind_scopes::is_input;
use design_core::{Signal, SignalKind};
use itoa::Buffer;
use loc_base::{Bits, Bytes, Name, NoMemory};
use std::alloc::Global;
use v_hierarchy::{Bounds, Signal as Declared, below};
use v_syntax::NetKind;

/// A variable where `reg` says so, else a net.
fn kind_in(kind: Option<NetKind>) -> SignalKind
    ensures { result ≡ kind_in kind }
{
    match kind {
        Some(NetKind::Reg) => SignalKind::Reg,
        Some(NetKind::Wire) | None => SignalKind::Net,
    }
}

/// The same, but that an input of the top is neither.
pub(crate) fn kind_of(top: bool, signal: Declared) -> SignalKind
    ensures { result ≡ kind_of top signal }
{
    if top && is_input(signal.direction) {
        SignalKind::Input
    } else {
        kind_in(signal.kind)
    }
}

/// The path of a name of a scope; one in the top's own scope is its own.
pub(crate) fn path_in(alloc: Global, prefix: Option<&Name>, name: &Name) -> Result<Name, NoMemory>
    ensures { IfOk result (λ n. n ≡ path_in (option_map (λ p. p.now) prefix.entry) name.now) }
{
    match prefix {
        Some(path) => below(alloc, path, name),
        None => name.copied(alloc),
    }
}

/// The name of these bytes.
fn name_of(alloc: Global, text: &[u8]) -> Result<Name, NoMemory>
    requires { IsName text.now }
    ensures { IfOk result (λ n. n ≡ text.now) }
{
    let name = Name::new(alloc, text)?;
    Ok(name.unwrap())
}

/// `path[address]`
#[tactic(auto, using(v_hierarchy::proofs::PathNames::turn_name))]
pub(crate) fn word_path(alloc: Global, path: &Name, address: i64) -> Result<Name, NoMemory>
    ensures { IfOk result (λ n. n ≡ word_path path.now address) }
{
    let mut buffer = Buffer::new();
    let mut text = Bytes::copy_of(alloc, path.as_bytes())?;
    text.push(b'[')?;
    text.append(buffer.format(address).as_bytes())?;
    text.push(b']')?;
    name_of(alloc, text.as_slice())
}

/// The word 0 of a width.
fn zero_word(width: u8) -> Bits
    requires least { 1 ≤ width }
    requires most { width ≤ 128 }
    ensures { result ≡ word width 0 }
{
    Bits::zero(width)
}

/// A signal of a range, which is 0 before the first cycle.
pub(crate) fn signal_of(path: Name, kind: SignalKind, signed: bool, bounds: Bounds) -> Signal
    requires { IsRange bounds }
    ensures { result ≡ signal_of path kind signed bounds }
{
    let width = bounds.width();
    Signal {
        path,
        width,
        signed,
        left: bounds.left,
        right: bounds.right,
        kind,
        start: zero_word(width),
    }
}
