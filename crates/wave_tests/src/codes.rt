//! Codes of variables with large numbers.
use loc_base::Bytes;
use std::test::Fail;
use vcd_words::write_code;

/// Numbers and their codes, by hand: 8,835 is 93 + 93 * 94, and 8,930 is 0 + 1 * 94 + 1 * 94 * 94.
const CODES: [(u64, &[u8]); 6] = [
    (0, b"!"),
    (1, b"\""),
    (93, b"~"),
    (94, b"!\""),
    (8_835, b"~~"),
    (8_930, b"!\"\""),
];

#[test]
fn a_code_has_its_least_digit_first(rt: HostRuntime) -> Result<(), Fail> {
    for (number, code) in CODES {
        let mut text = Bytes::new(rt.alloc());
        write_code(&mut text, number)?;
        assert_eq!(rt; text.as_slice(), code);
    }
    Ok(())
}
