//! Classes of bytes (IEEE 1364-2005, 3.2, 3.5.1 and 3.7).
ghost use Rattle.std.specs.Prelude.{◌≡◌, [], ◌∷◌, MatchOption, ◌≤◌, length, drop};
ghost use Rattle.std.specs.List.{list_all, prefix_len};
ghost use Rattle.v_syntax.specs.Bytes as class;
ghost use Rattle.v_lexer.specs.Directives.{word_size};
ghost use Rattle.v_lexer.specs.Pieces.{is_plain};

#[tactic(auto, unfolding(v_syntax::specs::Bytes::is_white))]
pub fn is_white(byte: u8) -> bool
    ensures { result ≡ class.is_white byte }
{
    matches!(byte, b' ' | 9..=10 | 12..=13)
}

#[tactic(auto, unfolding(v_syntax::specs::Bytes::is_letter))]
pub fn is_letter(byte: u8) -> bool
    ensures { result ≡ class.is_letter byte }
{
    matches!(byte, b'a'..=b'z' | b'A'..=b'Z' | b'_')
}

#[tactic(auto, unfolding(v_syntax::specs::Bytes::is_decimal))]
pub fn is_decimal(byte: u8) -> bool
    ensures { result ≡ class.is_decimal byte }
{
    matches!(byte, b'0'..=b'9')
}

#[tactic(auto, unfolding(v_syntax::specs::Bytes::is_name_byte))]
pub fn is_name_byte(byte: u8) -> bool
    ensures { result ≡ class.is_name_byte byte }
{
    is_letter(byte) || is_decimal(byte) || byte == b'$'
}

pub fn is_visible(byte: u8) -> bool
    ensures { result ≡ class.is_visible byte }
{
    matches!(byte, 33..=126)
}

/// Whether a symbol begins with this byte.
#[tactic(auto, unfolding(v_syntax::specs::Bytes::is_mark))]
pub fn is_mark(byte: u8) -> bool
    ensures { result ≡ class.is_mark byte }
{
    matches!(byte, b'!' | b'#' | b'%'..=b'&' | b'('..=b'/' | b':'..=b'@' | b'[' | b']' | b'^' | b'{'..=b'~')
}

/// Whether all bytes are white space.
pub fn is_all_white(bytes: &[u8]) -> bool
    ensures { result ≡ list_all class.is_white bytes.now }
{
    bytes.iter().all(|byte| is_white(*byte))
}

/// The first byte and the others.
pub fn first_of(bytes: &[u8]) -> Option<(u8, &[u8])>
    ensures { MatchOption result (bytes.now ≡ []) (λ p. bytes.now ≡ p.0 ∷ p.1.now) }
{
    match bytes.split_first() {
        Some((&first, rest)) => Some((first, rest)),
        None => None,
    }
}

/// The bytes behind so many of them.
pub fn behind(bytes: &[u8], count: usize) -> &[u8]
    requires { count ≤ length bytes.now }
    ensures { result.now ≡ drop count bytes.now }
{
    bytes.split_at(count).1
}

/// How many bytes of white space the bytes begin with.
pub fn white_run(bytes: &[u8]) -> usize
    ensures counts { result ≡ prefix_len class.is_white bytes.now }
    ensures within { result ≤ length bytes.now }
{
    bytes.iter().take_while(|byte| is_white(**byte)).count()
}

/// How many bytes that go on in a name the bytes begin with.
pub fn name_run(bytes: &[u8]) -> usize
    ensures counts { result ≡ prefix_len class.is_name_byte bytes.now }
    ensures within { result ≤ length bytes.now }
{
    bytes.iter().take_while(|byte| is_name_byte(**byte)).count()
}

/// How many bytes of a simple identifier the bytes begin with.
#[tactic(auto, unfolding(crate::specs::Directives::word_size))]
pub fn identifier_run(bytes: &[u8]) -> usize
    ensures counts { result ≡ word_size bytes.now }
    ensures within { result ≤ length bytes.now }
{
    match first_of(bytes) {
        None => 0,
        Some((first, rest)) => {
            if is_letter(first) {
                1 + name_run(rest)
            } else {
                0
            }
        }
    }
}

/// How many bytes stand before the first white space.
pub fn word_run(bytes: &[u8]) -> usize
    ensures counts { result ≡ prefix_len class.not_white bytes.now }
    ensures within { result ≤ length bytes.now }
{
    bytes.iter().take_while(|byte| !is_white(**byte)).count()
}

/// How many bytes stand before the first newline.
pub fn line_run(bytes: &[u8]) -> usize
    ensures counts { result ≡ prefix_len class.not_newline bytes.now }
    ensures within { result ≤ length bytes.now }
{
    bytes.iter().take_while(|byte| **byte != b'\n').count()
}

/// How many bytes stand before the first that begins a comment or a directive.
pub fn plain_run(bytes: &[u8]) -> usize
    ensures counts { result ≡ prefix_len is_plain bytes.now }
    ensures within { result ≤ length bytes.now }
{
    bytes
        .iter()
        .take_while(|byte| **byte != b'`' && **byte != b'/')
        .count()
}
