//! Header fields by their name.
ghost use Rattle.std.specs.Prelude.{◌≡◌, length, map, All};
ghost use Rattle.std.specs.Str.{str_eq_ignore_ascii_case};
ghost use Rattle.httparse.specs.Spans.{IsHeaderWithin, header_bytes};
ghost use Rattle.wgr_http.specs.Field.{IsField, values};

use httparse::spans::HeaderSpan;

/// The lines of a head that have one name: none, one with its value, or more.
#[derive(Clone, Copy)]
pub(crate) enum FieldLines<'a> {
    Absent,
    Once(&'a [u8]),
    Repeated,
}

/// The lines of this name.
pub(crate) fn field_of<'a>(buf: &'a [u8], headers: &[HeaderSpan], name: &[u8]) -> FieldLines<'a>
    requires { All (IsHeaderWithin (length buf.now)) headers.now }
    ensures { IsField result (values name.now (map (header_bytes buf.now) headers.now)) }
{
    let mut found = FieldLines::Absent;
    for header in headers {
        if same_name(header.name.of(buf), name) {
            match found {
                FieldLines::Absent => found = FieldLines::Once(header.value.of(buf)),
                FieldLines::Once(_) | FieldLines::Repeated => return FieldLines::Repeated,
            }
        }
    }
    found
}

/// Whether two names are the same: letters are compared without case (RFC 9110 section 5.1).
pub(crate) fn same_name(name: &[u8], other: &[u8]) -> bool
    ensures { result ≡ str_eq_ignore_ascii_case name.now other.now }
{
    name.eq_ignore_ascii_case(other)
}
