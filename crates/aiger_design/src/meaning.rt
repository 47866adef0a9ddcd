//! The design that a text means.
ghost use Rattle.std.specs.Prelude.{◌≡◌, ◌≤◌, length, IfOk, IfErr};
ghost use Rattle.std.specs.Option.{option_copied, option_to_list};
ghost use Rattle.aiger_text.specs.Content.{content_of};
ghost use Rattle.aiger_rules.specs.Ports.{left_out};
ghost use Rattle.aiger_design.specs.Numbering.{numbering_of};
ghost use Rattle.aiger_design.specs.Means.{AigerCause, IsFile};

use crate::file::File;
use crate::numbering::Numbering;
use aiger_rules::{check_literals, check_names};
use aiger_text::{AigerErr, Content, read_content};
use design_core::Design;
use loc_base::Name;
use std::alloc::Global;

/// How many clocks are named.
fn clocks_of(clock: Option<&Name>) -> u64
    ensures is { result ≡ length (option_to_list (option_copied clock.entry)) }
    ensures few { result ≤ 1 }
{
    match clock {
        Some(_name) => 1,
        None => 0,
    }
}

/// How signals and places are numbered, the row of the input that is the clock being given.
fn numbering_of(content: &Content<'_>, clock: Option<&Name>, out: u64) -> Numbering
    requires out { out ≡ left_out (content_of content.now) (option_copied clock) }
    ensures is { result ≡ numbering_of (content_of content.now) (option_copied clock.entry) }
    ensures clocks { result.clocks ≤ 1 }
    ensures counts { result.counts ≡ content.now.counts }
    ensures out { result.left_out ≡ out }
{
    Numbering {
        counts: content.counts,
        clocks: clocks_of(clock),
        left_out: out,
    }
}

/// The design that a text in ASCII AIGER means, by the top's name and the clock; or the first of the rules that it breaks: the length of
/// the text, the header, the shape of its lines, their literals, their names, and how large the design is.
#[tactic(auto, using(crate::proofs::FileNumbers::meaning_steps))]
pub fn aiger(
    alloc: Global,
    text: &[u8],
    top: &Name,
    clock: Option<&Name>,
) -> Result<Design, AigerErr>
    ensures ok { IfOk result (IsFile text.now top.now (option_copied clock.entry)) }
    ensures refused { IfErr result (AigerCause text.now (option_copied clock.entry)) }
{
    let content = read_content(alloc, text)?;
    let definers = check_literals(alloc, &content)?;
    let ports = check_names(alloc, &content, clock)?;
    let numbering = numbering_of(&content, clock, ports.left_out);
    if numbering.is_too_large() {
        return Err(AigerErr::Places);
    }
    let rows = content.rows.as_slice();
    let file = File {
        alloc,
        rows,
        definers: &definers,
        numbering,
    };
    let design = file.design(&ports.names, top)?;
    Ok(design)
}
