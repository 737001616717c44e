//! Numbers as text, at their edges.
use text::numeral::{read_number, read_numeral};

// A field, and the number that it writes.
const NUMBERS: &[(&str, Option<u16>)] = &[
    ("0", Some(0)),
    ("9", Some(9)),
    ("10", Some(10)),
    ("65535", Some(65535)),
    ("65536", None),
    ("100000", None),
    ("00", None),
    ("07", None),
    ("", None),
    ("-", None),
    ("-1", None),
    ("+1", None),
    ("1 ", None),
    ("/", None),
    (":", None),
];

// A field, the most digits, the highest number, and the number that the field writes then.
const NUMERALS: &[(&str, usize, u64, Option<u64>)] = &[
    ("18446744073709551615", 20, u64::MAX, Some(u64::MAX)),
    ("18446744073709551616", 20, u64::MAX, None),
    ("99999999999999999999", 20, u64::MAX, None),
    ("18446744073709551615", 19, u64::MAX, None),
    ("7", 1, 7, Some(7)),
    ("8", 1, 7, None),
    ("5", 0, 9, None),
];

#[test]
fn edges_of_a_number(rt: HostRuntime) {
    for (field, value) in NUMBERS {
        assert_eq!(rt; read_number(field.as_bytes()), *value, "{field}");
    }
    for (field, most, cap, value) in NUMERALS {
        assert_eq!(rt;
            read_numeral(field.as_bytes(), *most, *cap),
            *value,
            "{field}"
        );
    }
}
