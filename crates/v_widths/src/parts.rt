//! Concatenations and replications (IEEE 1364-2005, 5.1.14), and the logarithm.
ghost use Rattle.std.specs.Prelude.{◌≡◌, ◌≤◌, IfOk, None, int_lt, pos, false};
ghost use Rattle.design_core.specs.declared.expression.Node.TheVariants as node;
ghost use Rattle.v_sizes.specs.Literal.{limited};
ghost use Rattle.v_sizes.specs.Refusals.{is_bad_width, when};
ghost use Rattle.v_sizes.specs.Sized.{sized};
ghost use Rattle.v_sizes.specs.declared.error.WidthErr.TheVariants as fault;
ghost use Rattle.v_sizes.specs.Sizing.{known, times_of};
ghost use Rattle.v_widths.specs.Named.{logarithm_measured};
ghost use Rattle.v_widths.specs.Parts.{behind, no_parts, with_part, joined_parts, many, count_fault, repeated_parts};
ghost use Rattle.v_selects.specs.Taken.{taken};

use crate::measured::{Measured, Parts, leaf_measured};
use design_core::{Node, Typed};
use loc_base::{Boxed, Items, NoMemory, Span};
use std::alloc::Global;
use v_selects::leaf::{settled, word_node};
use v_selects::node::sized;
use v_selects::taken::{is_known_below_0, known_magnitude, number_word};
use v_selects::{Closed, Leaf};
use v_sizes::WidthErr;
use v_sizes::numbers::{limited, low_bits};
use v_sizes::power::logarithm;

/// A number behind another one, in 128 bits.
fn behind(before: u128, width: u16, number: u128) -> u128
    ensures { result ≡ behind before width number }
{
    low_bits(128, before)
        .shift_left(u128::from(width))
        .add(low_bits(128, number))
        .value()
}

/// No parts yet. It takes no memory.
pub(crate) fn no_parts(alloc: Global) -> Parts
    ensures { result ≡ no_parts }
{
    Parts {
        typed: Items::new(alloc),
        width: 0,
        constant: true,
        number: 0,
        fault: None,
    }
}

/// One part more on the right.
pub(crate) fn with_part(parts: Parts, e: Boxed<Closed>) -> Result<Parts, NoMemory>
    ensures { IfOk result (λ p. p ≡ with_part parts e) }
{
    let Parts {
        mut typed,
        width,
        constant,
        number,
        fault,
    } = parts;
    let e = e.into_inner();
    let own = u16::from(limited(e.typed.width));
    let number = behind(number, own, number_word(&e.typed).value());
    typed.push(e.typed)?;
    Ok(Parts {
        typed,
        width: width.saturating_add(own).min(1000),
        constant: constant && e.constant,
        number,
        fault: fault.or(e.fault),
    })
}

/// A sum of widths as a width.
fn limited_sum(width: u32) -> u8
    ensures { result ≡ limited width }
{
    width.min(128).max(1) as u8
}

/// What is wrong with the width of the whole.
fn width_fault(span: Span, width: u32) -> Option<WidthErr>
    ensures { result ≡ when (is_bad_width width) (fault.Range span) None }
{
    if width == 0 || width > 128 {
        Some(WidthErr::Range(span))
    } else {
        None
    }
}

/// A concatenation.
pub(crate) fn joined(alloc: Global, span: Span, parts: Parts) -> Result<Boxed<Measured>, NoMemory>
    ensures { IfOk result (λ m. m ≡ joined_parts span parts) }
{
    let sum = u32::from(parts.width);
    let width = limited_sum(sum);
    let constant = parts.constant;
    let fault = parts.fault.or(width_fault(span, sum));
    let node = match settled(width, constant, fault, parts.number) {
        Some(node) => node,
        None => Node::Join(parts.typed),
    };
    let leaf = Leaf {
        width,
        signed: false,
        constant,
        node,
        fault,
    };
    leaf_measured(alloc, leaf)
}

/// How many times the parts of a replication stand.
fn times_of(count: &Closed) -> u8
    ensures least { 1 ≤ result }
    ensures value { result ≡ times_of (known (taken count.now)) }
{
    if is_known_below_0(count) {
        1
    } else {
        known_magnitude(count).min(255).max(1) as u8
    }
}

/// Whether a count is a constant above 0.
fn is_known_above_0(count: &Closed) -> bool
    ensures { result ≡ int_lt (pos 0) (known (taken count.now)) }
{
    !is_known_below_0(count) && known_magnitude(count) != 0
}

/// What is wrong with a count, or with the width of the whole.
fn count_fault(span: Span, count: &Closed, width: u32) -> Option<WidthErr>
    ensures { result ≡ count_fault span count.now width }
{
    if !count.constant {
        Some(WidthErr::NotConstant(span))
    } else if !is_known_above_0(count) {
        Some(WidthErr::Range(span))
    } else {
        width_fault(span, width)
    }
}

/// A number a number of times, in 128 bits.
fn many(times: u8, width: u16, number: u128) -> u128
    ensures { result ≡ many times width number }
{
    let mut value = 0;
    for _ in 0..times {
        value = behind(value, width, number);
    }
    value
}

/// The node of parts a number of times.
fn repeat_node(alloc: Global, times: u8, width: u8, parts: Items<Typed>) -> Result<Node, NoMemory>
    ensures { IfOk result (λ n. n ≡ node.Repeat times (sized width false (node.Join parts))) }
{
    let part = Boxed::new(alloc, sized(width, false, Node::Join(parts)))?;
    Ok(Node::Repeat { times, part })
}

/// A replication.
pub(crate) fn repeated(
    alloc: Global,
    span: Span,
    count: Boxed<Closed>,
    parts: Parts,
) -> Result<Boxed<Measured>, NoMemory>
    ensures { IfOk result (λ m. m ≡ repeated_parts span count parts) }
{
    let times = times_of(count.get());
    let sum = u32::from(times) * u32::from(parts.width);
    let width = limited_sum(sum);
    let constant = parts.constant;
    let own = count_fault(span, count.get(), sum);
    let fault = count.fault.or(parts.fault.or(own));
    let number = many(times, parts.width, parts.number);
    let part = limited_sum(u32::from(parts.width));
    let node = match settled(width, constant, fault, number) {
        Some(node) => node,
        None => repeat_node(alloc, times, part, parts.typed)?,
    };
    let leaf = Leaf {
        width,
        signed: false,
        constant,
        node,
        fault,
    };
    leaf_measured(alloc, leaf)
}

/// `$clog2`, of a constant alone.
pub(crate) fn ceiling(
    alloc: Global,
    span: Span,
    argument: Boxed<Closed>,
) -> Result<Boxed<Measured>, NoMemory>
    ensures { IfOk result (λ m. m ≡ logarithm_measured span argument) }
{
    let constant = argument.constant;
    let own = if constant {
        None
    } else {
        Some(WidthErr::NotConstant(span))
    };
    let number = u128::from(logarithm(number_word(&argument.typed).value()));
    let node = if constant {
        word_node(32, number)
    } else {
        Node::Whole(0)
    };
    let leaf = Leaf {
        width: 32,
        signed: true,
        constant,
        node,
        fault: argument.fault.or(own),
    };
    leaf_measured(alloc, leaf)
}
