//! Why an expression is refused, and where: as rows of tables have it.
use loc_base::Span;
use v_widths::WidthErr;

/// The fault of an expression, and from which byte up to which its part stands.
#[derive(Clone, Copy)]
pub enum Refusal {
    UnknownName(u32, u32),
    NotConstant(u32, u32),
    ZeroDivisor(u32, u32),
    Range(u32, u32),
}

/// The error that a row asks for.
pub fn error_of(refusal: Refusal) -> WidthErr {
    match refusal {
        Refusal::UnknownName(from, to) => WidthErr::UnknownName(Span { from, to }),
        Refusal::NotConstant(from, to) => WidthErr::NotConstant(Span { from, to }),
        Refusal::ZeroDivisor(from, to) => WidthErr::ZeroDivisor(Span { from, to }),
        Refusal::Range(from, to) => WidthErr::Range(Span { from, to }),
    }
}
