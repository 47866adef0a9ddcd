//! The terminals of the grammar and their spellings: each table ascends by the bytes of its spellings.
ghost use Rattle.std.specs.Prelude.{◌≡◌, IsTrue, map};
ghost use Rattle.v_lexer.specs.Terminals as terminal;

use crate::types::{Terminal, TokenKind};

/// The operators and the marks of punctuation (IEEE 1364-2005, 3.4 and 5.1).
pub const SYMBOLS: [(&[u8], Terminal); 43] = [
    (b"!", Terminal::Bang),
    (b"!=", Terminal::BangEqual),
    (b"#", Terminal::Hash),
    (b"%", Terminal::Percent),
    (b"&", Terminal::Ampersand),
    (b"&&", Terminal::AndAnd),
    (b"(", Terminal::Open),
    (b")", Terminal::Close),
    (b"*", Terminal::Star),
    (b"**", Terminal::StarStar),
    (b"+", Terminal::Plus),
    (b"+:", Terminal::PlusColon),
    (b",", Terminal::Comma),
    (b"-", Terminal::Minus),
    (b"-:", Terminal::MinusColon),
    (b".", Terminal::Dot),
    (b"/", Terminal::Slash),
    (b":", Terminal::Colon),
    (b";", Terminal::Semicolon),
    (b"<", Terminal::Less),
    (b"<<", Terminal::ShiftLeft),
    (b"<<<", Terminal::SignedShiftLeft),
    (b"<=", Terminal::LessEqual),
    (b"=", Terminal::Equals),
    (b"==", Terminal::EqualEqual),
    (b">", Terminal::Greater),
    (b">=", Terminal::GreaterEqual),
    (b">>", Terminal::ShiftRight),
    (b">>>", Terminal::SignedShiftRight),
    (b"?", Terminal::Question),
    (b"@", Terminal::At),
    (b"[", Terminal::OpenBracket),
    (b"]", Terminal::CloseBracket),
    (b"^", Terminal::Caret),
    (b"^~", Terminal::TildeCaret),
    (b"{", Terminal::OpenBrace),
    (b"|", Terminal::Bar),
    (b"||", Terminal::BarBar),
    (b"}", Terminal::CloseBrace),
    (b"~", Terminal::Tilde),
    (b"~&", Terminal::TildeAmpersand),
    (b"~^", Terminal::TildeCaret),
    (b"~|", Terminal::TildeBar),
];

/// The system functions that are known (IEEE 1364-2005, 17.7.1 and 17.11.1).
pub const SYSTEM_FUNCTIONS: [(&[u8], Terminal); 3] = [
    (b"$clog2", Terminal::SystemClog2),
    (b"$signed", Terminal::SystemSigned),
    (b"$unsigned", Terminal::SystemUnsigned),
];

/// The reserved words (IEEE 1364-2005, annex B, without those of configurations, which may be names here).
pub const RESERVED_WORDS: [(&[u8], Terminal); 114] = [
    (b"always", Terminal::Always),
    (b"and", Terminal::And),
    (b"assign", Terminal::Assign),
    (b"automatic", Terminal::Refused),
    (b"begin", Terminal::Begin),
    (b"buf", Terminal::Buf),
    (b"bufif0", Terminal::Refused),
    (b"bufif1", Terminal::Refused),
    (b"case", Terminal::Case),
    (b"casex", Terminal::Refused),
    (b"casez", Terminal::Casez),
    (b"cmos", Terminal::Refused),
    (b"deassign", Terminal::Refused),
    (b"default", Terminal::Default),
    (b"defparam", Terminal::Refused),
    (b"disable", Terminal::Refused),
    (b"edge", Terminal::Refused),
    (b"else", Terminal::Else),
    (b"end", Terminal::End),
    (b"endcase", Terminal::Endcase),
    (b"endfunction", Terminal::Refused),
    (b"endgenerate", Terminal::Endgenerate),
    (b"endmodule", Terminal::Endmodule),
    (b"endprimitive", Terminal::Refused),
    (b"endspecify", Terminal::Refused),
    (b"endtable", Terminal::Refused),
    (b"endtask", Terminal::Refused),
    (b"event", Terminal::Refused),
    (b"for", Terminal::For),
    (b"force", Terminal::Refused),
    (b"forever", Terminal::Refused),
    (b"fork", Terminal::Refused),
    (b"function", Terminal::Refused),
    (b"generate", Terminal::Generate),
    (b"genvar", Terminal::Genvar),
    (b"highz0", Terminal::Refused),
    (b"highz1", Terminal::Refused),
    (b"if", Terminal::If),
    (b"ifnone", Terminal::Refused),
    (b"initial", Terminal::Initial),
    (b"inout", Terminal::Refused),
    (b"input", Terminal::Input),
    (b"integer", Terminal::Integer),
    (b"join", Terminal::Refused),
    (b"large", Terminal::Refused),
    (b"localparam", Terminal::Localparam),
    (b"macromodule", Terminal::Refused),
    (b"medium", Terminal::Refused),
    (b"module", Terminal::Module),
    (b"nand", Terminal::Nand),
    (b"negedge", Terminal::Negedge),
    (b"nmos", Terminal::Refused),
    (b"nor", Terminal::Nor),
    (b"noshowcancelled", Terminal::Refused),
    (b"not", Terminal::Not),
    (b"notif0", Terminal::Refused),
    (b"notif1", Terminal::Refused),
    (b"or", Terminal::Or),
    (b"output", Terminal::Output),
    (b"parameter", Terminal::Parameter),
    (b"pmos", Terminal::Refused),
    (b"posedge", Terminal::Posedge),
    (b"primitive", Terminal::Refused),
    (b"pull0", Terminal::Refused),
    (b"pull1", Terminal::Refused),
    (b"pulldown", Terminal::Refused),
    (b"pullup", Terminal::Refused),
    (b"pulsestyle_ondetect", Terminal::Refused),
    (b"pulsestyle_onevent", Terminal::Refused),
    (b"rcmos", Terminal::Refused),
    (b"real", Terminal::Refused),
    (b"realtime", Terminal::Refused),
    (b"reg", Terminal::Reg),
    (b"release", Terminal::Refused),
    (b"repeat", Terminal::Refused),
    (b"rnmos", Terminal::Refused),
    (b"rpmos", Terminal::Refused),
    (b"rtran", Terminal::Refused),
    (b"rtranif0", Terminal::Refused),
    (b"rtranif1", Terminal::Refused),
    (b"scalared", Terminal::Refused),
    (b"showcancelled", Terminal::Refused),
    (b"signed", Terminal::Signed),
    (b"small", Terminal::Refused),
    (b"specify", Terminal::Refused),
    (b"specparam", Terminal::Refused),
    (b"strong0", Terminal::Refused),
    (b"strong1", Terminal::Refused),
    (b"supply0", Terminal::Refused),
    (b"supply1", Terminal::Refused),
    (b"table", Terminal::Refused),
    (b"task", Terminal::Refused),
    (b"time", Terminal::Refused),
    (b"tran", Terminal::Refused),
    (b"tranif0", Terminal::Refused),
    (b"tranif1", Terminal::Refused),
    (b"tri", Terminal::Refused),
    (b"tri0", Terminal::Refused),
    (b"tri1", Terminal::Refused),
    (b"triand", Terminal::Refused),
    (b"trior", Terminal::Refused),
    (b"trireg", Terminal::Refused),
    (b"unsigned", Terminal::Refused),
    (b"uwire", Terminal::Refused),
    (b"vectored", Terminal::Refused),
    (b"wait", Terminal::Refused),
    (b"wand", Terminal::Refused),
    (b"weak0", Terminal::Refused),
    (b"weak1", Terminal::Refused),
    (b"while", Terminal::Refused),
    (b"wire", Terminal::Wire),
    (b"wor", Terminal::Refused),
    (b"xnor", Terminal::Xnor),
    (b"xor", Terminal::Xor),
];

/// The terminal that a table has for a text.
fn spelled(table: &[(&[u8], Terminal)], text: &[u8]) -> Option<Terminal>
    requires { IsTrue (terminal.ascends (map (λ row. (row.0.now, row.1)) table.now)) }
    ensures { result ≡ terminal.spelled (map (λ row. (row.0.now, row.1)) table.now) text.now }
{
    match table.binary_search_by_key(&text, |row| row.0) {
        Ok(place) => Some(table[place].1),
        Err(_) => None,
    }
}

/// The terminal of a symbol.
#[tactic(auto, unfolding(crate::specs::Terminals::symbol))]
fn symbol(text: &[u8]) -> Option<Terminal>
    ensures { result ≡ terminal.symbol text.now }
{
    spelled(&SYMBOLS, text)
}

/// The terminal of the name of a system function.
#[tactic(auto, unfolding(crate::specs::Terminals::system_function))]
pub fn system_function(text: &[u8]) -> Option<Terminal>
    ensures { result ≡ terminal.system_function text.now }
{
    spelled(&SYSTEM_FUNCTIONS, text)
}

/// The terminal of a reserved word.
#[tactic(auto, unfolding(crate::specs::Terminals::reserved_word))]
pub fn reserved_word(text: &[u8]) -> Option<Terminal>
    ensures { result ≡ terminal.reserved_word text.now }
{
    spelled(&RESERVED_WORDS, text)
}

/// What a token of this kind and this text is to the grammar.
pub fn terminal_of(kind: TokenKind, text: &[u8]) -> Terminal
    ensures { result ≡ terminal.terminal_of kind text.now }
{
    match kind {
        TokenKind::Name => Terminal::Name,
        TokenKind::Number => Terminal::Number,
        TokenKind::Wild => Terminal::Wild,
        TokenKind::System => system_function(text).unwrap_or(Terminal::Nothing),
        TokenKind::Symbol => symbol(text).unwrap_or(Terminal::Nothing),
        TokenKind::Word => reserved_word(text).unwrap_or(Terminal::Nothing),
    }
}
