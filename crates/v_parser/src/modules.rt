//! Modules (IEEE 1364-2005, 12.1 and A.1.2).
ghost use Rattle.std.specs.Prelude.{◌<◌, ◌≤◌, ◌^◌, length, map, IfOk};
ghost use Rattle.v_tree.specs.Faults.{Gives};
ghost use Rattle.v_syntax.specs.ModuleTree.{header_parameter_of, ports_of};
ghost use Rattle.v_parts.specs.Seen.{Inside};
ghost use Rattle.v_parser.specs.ModuleSeen.{seen_module, seen_modules};
ghost use Rattle.v_parser.specs.ModuleReading.{module_items_at, module_at, source_at};

use crate::items::items;
use std::alloc::Global;
use v_declarations::{header_parameters, header_ports};
use v_lexer::types::Token;
use v_parts::{Read, identifier};
use v_syntax::{HeaderParameter, Identifier, Module, Ports};
use v_tree::{Terminal, expect, site_of};

/// How deep each part of a module may nest.
const MOST_NESTING: u32 = 256;

/// `'module' NAME ('#' '(' hparam,+ ')')? ('(' ports? ')')? ';'` from `from` on.
struct Header {
    from: usize,
    name: Identifier,
    parameters: Vec<HeaderParameter>,
    ports: Ports,
}

/// `item* 'endmodule'` behind the header.
#[tactic(auto, unfolding(crate::specs::ModuleReading::module_items_at))]
fn module_items(
    alloc: Global,
    tokens: &[Token],
    header: Header,
    at: usize,
    nesting_left: u32,
) -> Read<Module>
    requires short { length tokens.now < 2 ^ 32 }
    requires before { header.from < 2 ^ 32 }
    requires inside { at ≤ length tokens.now }
    ensures gives { Gives seen_module result (module_items_at tokens.now nesting_left header.from header.name (map header_parameter_of header.parameters.items) (ports_of header.ports) at) }
    ensures inside { IfOk result (Inside tokens.now) }
{
    let Header {
        from,
        name,
        parameters,
        ports,
    } = header;
    let (items, end) = items(alloc, tokens, at, nesting_left, Terminal::Endmodule)?;
    let site = site_of(tokens, from, end);
    let module = Module {
        site,
        name,
        parameters,
        ports,
        items,
    };
    Ok((module, end))
}

/// `'module' NAME ('#' '(' hparam,+ ')')? ('(' ports? ')')? ';' item* 'endmodule'`
#[tactic(auto, unfolding(crate::specs::ModuleReading::module_at))]
fn module(alloc: Global, tokens: &[Token], from: usize, nesting_left: u32) -> Read<Module>
    requires short { length tokens.now < 2 ^ 32 }
    requires inside { from ≤ length tokens.now }
    ensures gives { Gives seen_module result (module_at tokens.now nesting_left from) }
    ensures inside { IfOk result (Inside tokens.now) }
{
    let next = expect(tokens, Terminal::Module, from)?;
    let (name, next) = identifier(alloc, tokens, next)?;
    let (parameters, next) = header_parameters(alloc, tokens, next, nesting_left)?;
    let (ports, semicolon) = header_ports(alloc, tokens, next, nesting_left)?;
    let next = expect(tokens, Terminal::Semicolon, semicolon)?;
    let header = Header {
        from,
        name,
        parameters,
        ports,
    };
    module_items(alloc, tokens, header, next, nesting_left)
}

/// `module*`, up to the end of the tokens.
#[tactic(auto, unfolding(crate::specs::ModuleReading::source_at))]
pub fn modules(alloc: Global, tokens: &[Token]) -> Read<Vec<Module>>
    requires short { length tokens.now < 2 ^ 32 }
    ensures gives { Gives seen_modules result (source_at tokens.now 0) }
    ensures inside { IfOk result (Inside tokens.now) }
{
    let mut list = Vec::new(alloc);
    let mut end = 0;
    for _ in 0..tokens.len() {
        if end >= tokens.len() {
            return Ok((list, end));
        }
        let (part, next) = module(alloc, tokens, end, MOST_NESTING)?;
        list.push(part)?;
        end = next;
    }
    Ok((list, end))
}
