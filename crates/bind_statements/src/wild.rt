//! The wild bits of the labels of `casez` (IEEE 1364-2005, 3.5.1 and 9.5.1).
ghost use Rattle.std.specs.Prelude.{◌≡◌, ◌≤◌, ◌%◌, ◌^◌, ◌-◌, length, IfSome};
ghost use Rattle.std.specs.List.{prefix_len};
ghost use Rattle.v_syntax.specs.Bytes as class;
ghost use Rattle.v_syntax.specs.Numbers as shape;
ghost use Rattle.v_syntax.specs.Literals as lexed;
ghost use Rattle.loc_base.specs.Bits.{width_of, value_of};
ghost use Rattle.loc_base.specs.Word.{extended};
ghost use Rattle.v_sizes.specs.Literal.{quote_in, literal_width};
ghost use Rattle.v_sizes.specs.Word.{word};
ghost use Rattle.v_syntax.specs.Tree.{tree_of};
ghost use Rattle.v_binding.specs.Cases.{wild_from, wild_of_digits, wild_in_base, wild_behind, wild_number, wild_bits};
ghost use Rattle.bind_statements.specs.WildDigits.{next_wild};
ghost use Rattle.bind_statements.specs.Contexts.{context_of};

use crate::case_context::CaseContext;
use loc_base::Bits;
use v_sizes::literal::literal_width;
use v_sizes::numbers::low_bits;
use v_syntax::Expr;

#[tactic(auto, unfolding(v_syntax::specs::Bytes::is_white))]
fn is_white(byte: u8) -> bool
    ensures { result ≡ class.is_white byte }
{
    matches!(byte, b' ' | 9..=10 | 12..=13)
}

#[tactic(auto, unfolding(v_syntax::specs::Numbers::is_sign))]
fn is_sign(byte: u8) -> bool
    ensures { result ≡ shape.is_sign byte }
{
    matches!(byte, b's' | b'S')
}

#[tactic(auto, unfolding(v_syntax::specs::Numbers::is_wild))]
fn is_wild(byte: u8) -> bool
    ensures { result ≡ shape.is_wild byte }
{
    matches!(byte, b'z' | b'Z' | b'?')
}

#[tactic(auto, unfolding(v_syntax::specs::Numbers::is_hexadecimal, v_syntax::specs::Bytes::is_decimal))]
fn is_hexadecimal(byte: u8) -> bool
    ensures { result ≡ shape.is_hexadecimal byte }
{
    matches!(byte, b'0'..=b'9' | b'a'..=b'f' | b'A'..=b'F')
}

/// The number that a base letter names.
#[tactic(auto, unfolding(v_syntax::specs::Literals::base_of))]
fn base_of(byte: u8) -> Option<u128>
    ensures is { result ≡ lexed.base_of byte }
    ensures least { IfSome result (λ base. 1 ≤ base) }
{
    match byte {
        b'b' | b'B' => Some(2),
        b'o' | b'O' => Some(8),
        b'd' | b'D' => Some(10),
        b'h' | b'H' => Some(16),
        _ => None,
    }
}

/// How many bytes of white space the bytes begin with.
fn white_run(bytes: &[u8]) -> usize
    ensures counts { result ≡ prefix_len class.is_white bytes.now }
    ensures within { result ≤ length bytes.now }
{
    bytes.iter().take_while(|byte| is_white(**byte)).count()
}

/// The bytes from the first that is no white space.
fn skip_white(bytes: &[u8]) -> &[u8]
    ensures { result.now ≡ lexed.skip_white bytes.now }
{
    let (_, rest) = bytes.split_at(white_run(bytes));
    rest
}

/// The number with the wild bits up to this digit, from that of the digits before it, in 128 bits.
fn next_wild(before: u128, base: u128, byte: u8) -> u128
    requires { 1 ≤ base }
    ensures { result ≡ next_wild base before byte % 2 ^ 128 }
{
    if is_wild(byte) {
        before.wrapping_mul(base).wrapping_add(base - 1)
    } else if is_hexadecimal(byte) {
        before.wrapping_mul(base)
    } else {
        before
    }
}

/// The number with the wild bits of the digits, behind those of a number, in 128 bits.
#[tactic(auto, using(crate::proofs::WildSteps::wild_steps))]
fn wild_from(base: u128, start: u128, digits: &[u8]) -> u128
    requires { 1 ≤ base }
    ensures { result ≡ wild_from base start digits.now % 2 ^ 128 }
{
    let mut wild = start;
    for byte in digits {
        wild = next_wild(wild, base, *byte);
    }
    wild
}

/// The number whose bits are all 1.
fn ones(width: u8) -> u128
    requires least { 1 ≤ width }
    requires most { width ≤ 128 }
    ensures { result ≡ 2 ^ width - 1 }
{
    Bits::zero(width).not().value()
}

/// The wild bits of a run of digits.
#[tactic(auto, using(loc_base::proofs::Modulo::mod_mod_of))]
fn wild_of_digits(width: u8, base: u128, digits: &[u8]) -> Bits
    requires least { 1 ≤ width }
    requires most { width ≤ 128 }
    requires base { 1 ≤ base }
    ensures width { width_of result ≡ width }
    ensures value { value_of result ≡ wild_of_digits width base digits.now }
{
    let Some((first, _)) = digits.split_first() else {
        return Bits::zero(width);
    };
    let start = if is_wild(*first) { ones(width) } else { 0 };
    low_bits(width, wild_from(base, start, digits))
}

/// The wild bits of a base letter and the digits behind it.
fn wild_in_base(width: u8, behind: &[u8]) -> Bits
    requires least { 1 ≤ width }
    requires most { width ≤ 128 }
    ensures width { width_of result ≡ width }
    ensures value { value_of result ≡ wild_in_base width behind.now }
{
    let Some((letter, digits)) = behind.split_first() else {
        return Bits::zero(width);
    };
    match base_of(*letter) {
        Some(base) => wild_of_digits(width, base, skip_white(digits)),
        None => Bits::zero(width),
    }
}

/// The wild bits of what stands behind the quote.
fn wild_behind(width: u8, behind: &[u8]) -> Bits
    requires least { 1 ≤ width }
    requires most { width ≤ 128 }
    ensures width { width_of result ≡ width }
    ensures value { value_of result ≡ wild_behind width behind.now }
{
    match behind.split_first() {
        Some((byte, rest)) => {
            if is_sign(*byte) {
                wild_in_base(width, rest)
            } else {
                wild_in_base(width, behind)
            }
        }
        None => Bits::zero(width),
    }
}

/// The place of the quote between size and base, where there is one.
fn quote_in(text: &[u8]) -> Option<usize>
    ensures { result ≡ quote_in text.now }
{
    text.iter().position(|byte| *byte == b'\'')
}

/// The wild bits of a number.
fn wild_number(text: &[u8]) -> Bits
    ensures width { width_of result ≡ literal_width text.now }
    ensures value { value_of result ≡ wild_number text.now }
{
    let width = literal_width(text);
    match quote_in(text) {
        Some(at) => wild_behind(width, &text[at + 1..]),
        None => Bits::zero(width),
    }
}

/// A word that is carried to a width, or cut to it.
#[tactic(auto, using(crate::proofs::Carried::carried_laws))]
fn carried(word: Bits, signed: bool, width: u8) -> Bits
    requires least { 1 ≤ width }
    requires most { width ≤ 128 }
    ensures width { width_of result ≡ width }
    ensures value { value_of result ≡ extended signed (width_of word) width (value_of word) % 2 ^ width }
{
    if word.width() <= width {
        word.extend(width, signed)
    } else {
        word.cut(width)
    }
}

/// The wild bits of a label in its context.
#[tactic(auto, using(v_widths::proofs::TreeSteps::tree_steps))]
fn wild_bits(context: CaseContext, e: &Expr) -> Bits
    ensures width { width_of result ≡ context.width }
    ensures value { value_of result ≡ wild_bits (context_of context) (tree_of e.now) % 2 ^ context.width }
{
    match e {
        Expr::Wild { site: _, number } => carried(
            wild_number(number.text.as_slice()),
            context.signed,
            context.width,
        ),
        Expr::Number { .. }
        | Expr::Name { .. }
        | Expr::Parens { .. }
        | Expr::Concat { .. }
        | Expr::Repeat { .. }
        | Expr::System { .. }
        | Expr::Unary { .. }
        | Expr::Binary { .. }
        | Expr::Conditional { .. } => Bits::zero(context.width),
    }
}

/// The wild bits of a label, as a word of its context.
pub(crate) fn wild_word(context: CaseContext, e: &Expr) -> Bits
    ensures { result ≡ word context.width (wild_bits (context_of context) (tree_of e.now)) }
{
    wild_bits(context, e)
}
