//! Decimal numbers, parts and lines.
use cqf_text::{parts, read_decimal, split_line};
use std::alloc::Global;

/// Texts, the least and the greatest number, and the number that is read.
const NUMBERS: &[(&[u8], u64, u64, Option<u64>)] = &[
    // one to twenty digits
    (b"0", 0, 9, Some(0)),
    (b"007", 0, 9, Some(7)),
    (b"00000000000000000042", 0, 99, Some(42)),
    (b"18446744073709551615", 0, u64::MAX, Some(u64::MAX)),
    (b"", 0, u64::MAX, None),
    (b"000000000000000000042", 0, u64::MAX, None),
    (b"+5", 0, u64::MAX, None),
    (b" 5", 0, u64::MAX, None),
    (b"5\r", 0, u64::MAX, None),
    (b"\xff", 0, u64::MAX, None),
    (b"18446744073709551616", 0, u64::MAX, None),
    // in a range
    (b"64", 64, 1522, Some(64)),
    (b"1522", 64, 1522, Some(1522)),
    (b"63", 64, 1522, None),
    (b"1523", 64, 1522, None),
];

#[test]
fn a_decimal_number_has_one_to_twenty_digits_and_lies_in_its_range(rt: HostRuntime) {
    for (text, least, most, wanted) in NUMBERS {
        assert!(rt; read_decimal(text, *least, *most) == *wanted);
    }
}

/// Inputs, and their parts.
const PARTS: &[(&[u8], &[&[u8]])] = &[
    // dividers are lines of two percent signs
    (b"a\n%%\nb", &[b"a\n", b"b"]),
    (b"%%\n%%\n", &[b"", b"", b""]),
    (b"a\n%%", &[b"a\n", b""]),
    (b"", &[b""]),
    // other lines aren't
    (b"a\n%%%\nb", &[b"a\n%%%\nb"]),
    (b"%%\r\nb", &[b"%%\r\nb"]),
    (b" %%\n", &[b" %%\n"]),
    (b"%% \n", &[b"%% \n"]),
    (b"a%%", &[b"a%%"]),
];

/// Returns whether some texts are the wanted ones.
fn are_texts(texts: &[&[u8]], wanted: &[&[u8]]) -> bool {
    texts.len() == wanted.len() && texts.iter().zip(wanted).all(|(one, other)| *one == *other)
}

/// Returns whether the input is divided into these parts.
fn is_divided(alloc: Global, input: &[u8], wanted: &[&[u8]]) -> bool {
    match parts(alloc, input) {
        Ok(found) => are_texts(found.as_slice(), wanted),
        Err(_) => false,
    }
}

#[test]
fn dividers_are_lines_of_two_percent_signs(rt: HostRuntime) {
    for (input, wanted) in PARTS {
        assert!(rt; is_divided(rt.alloc(), input, wanted));
    }
}

/// Texts, and their lines. An empty piece after the last line feed isn't a line.
const LINES: &[(&[u8], &[&[u8]])] = &[
    (b"80 1000\n\n40 1000", &[b"80 1000", b"", b"40 1000"]),
    (b"seal\n", &[b"seal"]),
];

/// Returns whether the text has these lines.
fn has_lines(text: &[u8], wanted: &[&[u8]]) -> bool {
    let mut rest = text;
    for line in wanted {
        match split_line(rest) {
            Some((found, following)) if found == *line => rest = following,
            _ => return false,
        }
    }
    split_line(rest).is_none()
}

#[test]
fn lines_end_at_line_feeds(rt: HostRuntime) {
    for (text, wanted) in LINES {
        assert!(rt; has_lines(text, wanted));
    }
}
