//! Classes of bytes (IEEE 1364-2005, 3.2 and 3.5.1).
ghost use Rattle.std.specs.Prelude.{◌≡◌};
ghost use Rattle.loc_base.specs.Ascii as class;

/// Whether a byte is white space: a space, a tab, a newline, a form feed or a carriage return.
pub fn is_white(byte: u8) -> bool
    ensures { result ≡ class.is_white byte }
{
    byte == b' ' || byte == b'\t' || byte == b'\n' || byte == 12 || byte == b'\r'
}

/// Whether a byte is a decimal digit.
pub fn is_decimal(byte: u8) -> bool
    ensures { result ≡ class.is_decimal byte }
{
    b'0' <= byte && byte <= b'9'
}

/// Whether a byte is printable ASCII other than the space: one of 33 to 126.
pub fn is_visible(byte: u8) -> bool
    ensures { result ≡ class.is_visible byte }
{
    33 <= byte && byte <= 126
}
