//! The scope of a dump in which the ports are read, for a person.
ghost use Rattle.vcd_traces.specs.Ports.{HasPorts};

use loc_base::{NoMemory, is_visible};
use printed_text::push_bytes;
use std::alloc::Global;
use vcd_reading::{Opened, Sought, VcdErr, index, read_header, scope_of, top_ports};
use vcd_traces::SampleBy;

/// The names of a scope and of those around it, its own first.
fn names_outwards<'a>(
    alloc: Global,
    scopes: &[Opened<'a>],
    scope: usize,
) -> Result<Vec<&'a [u8]>, NoMemory> {
    let mut names = Vec::new(alloc);
    let mut next = Some(scope);
    // No scope stands in more than there are.
    for _ in 0..scopes.len() {
        let Some(number) = next else {
            break;
        };
        let Some(opened) = scopes.get(number) else {
            break;
        };
        names.push(opened.name)?;
        next = opened.around;
    }
    Ok(names)
}

/// Appends a name, with a question mark for each byte that isn't printable.
fn push_shown(path: &mut Vec<u8>, name: &[u8]) -> Result<(), NoMemory> {
    for byte in name {
        let shown = if is_visible(*byte) { *byte } else { b'?' };
        path.push(shown)?;
    }
    Ok(())
}

/// The path of a scope: the names from the outermost scope on, joined by dots.
fn path_of(alloc: Global, scopes: &[Opened<'_>], scope: usize) -> Result<Vec<u8>, NoMemory> {
    let names = names_outwards(alloc, scopes, scope)?;
    let mut path = Vec::new(alloc);
    for at in (0..names.len()).rev() {
        push_shown(&mut path, names[at])?;
        if at > 0 {
            push_bytes(&mut path, b".")?;
        }
    }
    Ok(path)
}

/// The path of the scope in which a dump is read, if there is one.
pub(crate) fn scope_path(
    alloc: Global,
    text: &[u8],
    by: &SampleBy<'_>,
) -> Result<Option<Vec<u8>>, VcdErr>
    requires { HasPorts by.now.design.now }
{
    let header = read_header(alloc, text)?.header;
    let names = index(alloc, header.variables.as_slice())?;
    let ports = top_ports(alloc, by.design, by.clock)?;
    let sought = Sought {
        scope: by.path(),
        ports: ports.as_slice(),
    };
    match scope_of(alloc, &header, &names, &sought)? {
        Some(scope) => Ok(Some(path_of(alloc, header.scopes.as_slice(), scope)?)),
        None => Ok(None),
    }
}
