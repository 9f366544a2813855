//! A newline ends a line, as in POSIX's definition of a line, and the last line may lack one.
use super::*;

const TEXTS: &[(&str, &[&str], &str)] = &[
    ("", &[], ""),
    ("\n", &[""], ""),
    ("a", &["a"], "a"),
    ("a\n", &["a"], "a"),
    ("\na", &["", "a"], ""),
    ("a\n\nb\r\n", &["a", "", "b\r"], "a"),
];

#[test]
fn texts(rt: HostRuntime) {
    for &(text, lines, first) in TEXTS {
        let mut at = 0;
        for line in TextLines::new(text.as_bytes()) {
            assert!(rt; at < lines.len(), "{text}");
            assert_eq!(rt; line, lines[at].as_bytes(), "{text}");
            at += 1;
        }
        assert_eq!(rt; at, lines.len(), "{text}");
        assert_eq!(rt; first_line(text.as_bytes()).0, first.as_bytes(), "{text}");
    }
}
