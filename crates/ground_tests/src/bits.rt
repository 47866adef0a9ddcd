//! Every operation on words against values that Python's integers gave.

mod tables;

ghost use Rattle.std.specs.Prelude.{◌≡◌};
ghost use Rattle.loc_base.specs.Bits.{width_of};

use crate::same::same;
use loc_base::Bits;
use std::process::Abort;
use tables::*;

fn word(rt: &impl Abort, width: u8, value: u128) -> Bits
    ensures { width_of result ≡ width }
{
    Bits::new(width, value).expect(rt, "a word")
}

#[test]
fn a_value_with_more_bits_than_its_width_is_no_word(rt: HostRuntime) {
    assert!(rt; Bits::new(3, 8).is_none());
    assert!(rt; word(&rt, 3, 7).value() == 7);
    assert!(rt; Bits::new(127, 1 << 127).is_none());
}

#[test]
fn a_width_is_from_1_to_128(rt: HostRuntime) {
    assert!(rt; Bits::new(0, 0).is_none());
    assert!(rt; Bits::new(129, 0).is_none());
    assert!(rt; word(&rt, 128, u128::MAX).width() == 128);
}

#[test]
fn sums_differences_and_products_wrap_at_the_width(rt: HostRuntime) {
    for row in &SUMS {
        let (width, a, b, want) = *row;
        let found = word(&rt, width, a).add(word(&rt, width, b));
        same(&rt, &("+", row), &found, &word(&rt, width, want));
    }
    for row in &DIFFERENCES {
        let (width, a, b, want) = *row;
        let found = word(&rt, width, a).sub(word(&rt, width, b));
        same(&rt, &("-", row), &found, &word(&rt, width, want));
    }
    for row in &PRODUCTS {
        let (width, a, b, want) = *row;
        let found = word(&rt, width, a).mul(word(&rt, width, b));
        same(&rt, &("*", row), &found, &word(&rt, width, want));
    }
}

#[test]
fn bitwise_operations_go_place_by_place(rt: HostRuntime) {
    for row in &ANDS {
        let (width, a, b, want) = *row;
        let found = word(&rt, width, a).and(word(&rt, width, b));
        same(&rt, &("&", row), &found, &word(&rt, width, want));
    }
    for row in &ORS {
        let (width, a, b, want) = *row;
        let found = word(&rt, width, a).or(word(&rt, width, b));
        same(&rt, &("|", row), &found, &word(&rt, width, want));
    }
    for row in &XORS {
        let (width, a, b, want) = *row;
        let found = word(&rt, width, a).xor(word(&rt, width, b));
        same(&rt, &("^", row), &found, &word(&rt, width, want));
    }
    for row in &NOTS {
        let (width, a, want) = *row;
        let found = word(&rt, width, a).not();
        same(&rt, &("!", row), &found, &word(&rt, width, want));
    }
}

#[test]
fn orders_differ_by_the_highest_bit(rt: HostRuntime) {
    for row in &LESS {
        let (width, a, b, want) = *row;
        let found = word(&rt, width, a).less(word(&rt, width, b));
        same(&rt, &("<", row), &found, &want);
    }
    for row in &LESS_SIGNED {
        let (width, a, b, want) = *row;
        let found = word(&rt, width, a).less_signed(word(&rt, width, b));
        same(&rt, &("signed <", row), &found, &want);
    }
}

#[test]
fn shifts_are_exact_for_every_count(rt: HostRuntime) {
    for row in &SHIFTED_LEFT {
        let (width, a, by, want) = *row;
        let found = word(&rt, width, a).shift_left(by);
        same(&rt, &("<<", row), &found, &word(&rt, width, want));
    }
    for row in &SHIFTED_RIGHT {
        let (width, a, by, want) = *row;
        let found = word(&rt, width, a).shift_right(by);
        same(&rt, &(">>", row), &found, &word(&rt, width, want));
    }
    for row in &SHIFTED_SIGNED {
        let (width, a, by, want) = *row;
        let found = word(&rt, width, a).shift_right_signed(by);
        same(&rt, &(">>>", row), &found, &word(&rt, width, want));
    }
}

#[test]
fn a_wider_word_is_filled_with_zeros_or_with_the_highest_bit(rt: HostRuntime) {
    for row in &EXTENDED {
        let (width, a, wider, want) = *row;
        assert!(rt; width <= wider && wider <= 128);
        let found = word(&rt, width, a).extend(wider, false);
        same(&rt, &("zeros", row), &found, &word(&rt, wider, want));
    }
    for row in &EXTENDED_SIGNED {
        let (width, a, wider, want) = *row;
        assert!(rt; width <= wider && wider <= 128);
        let found = word(&rt, width, a).extend(wider, true);
        same(&rt, &("highest bit", row), &found, &word(&rt, wider, want));
    }
}

#[test]
fn cuts_and_parts_are_bits_in_their_order(rt: HostRuntime) {
    for row in &CUTS {
        let (width, a, narrower, want) = *row;
        assert!(rt; 1 <= narrower && narrower <= width);
        let found = word(&rt, width, a).cut(narrower);
        same(&rt, &("cut", row), &found, &word(&rt, narrower, want));
    }
    for row in &PARTS {
        let (width, a, from, count, want) = *row;
        assert!(rt; 1 <= count && from <= width && count <= width - from);
        let found = word(&rt, width, a).part(from, count);
        same(&rt, &("part", row), &found, &word(&rt, count, want));
    }
}

#[test]
fn a_joined_word_has_the_first_word_above_the_second(rt: HostRuntime) {
    for row in &JOINS {
        let (high_width, high, low_width, low, want) = *row;
        assert!(rt; high_width <= 128 && low_width <= 128 - high_width);
        let found = word(&rt, high_width, high).join(word(&rt, low_width, low));
        same(&rt, row, &found, &word(&rt, high_width + low_width, want));
    }
}
