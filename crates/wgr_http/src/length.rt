//! The value of `Content-Length`.
ghost use Rattle.std.specs.Prelude.{◌≡◌, ◌≤◌, length, true};
ghost use Rattle.std.specs.List.{list_all};
ghost use Rattle.std.specs.Char.{is_ascii_digit};
ghost use Rattle.std.specs.Str.Parse.{digits_value};
ghost use Rattle.wgr_http.specs.Length.{length_value};

/// The most bytes of a body: 2 MiB.
pub(crate) const MAX_BODY: u128 = 2_097_152;

/// The number that 1 to 20 decimal digits represent.
pub(crate) fn length_of(text: &[u8]) -> Option<u128>
    ensures { result ≡ length_value text.now }
{
    if !text.is_empty() && text.len() <= 20 && all_digits(text) {
        Some(number_of(text))
    } else {
        None
    }
}

fn all_digits(text: &[u8]) -> bool
    ensures { result ≡ list_all is_ascii_digit text.now }
{
    text.iter().all(|b| b.is_ascii_digit())
}

// The number that at most 20 digits represent. It has 67 bits at most.
fn number_of(text: &[u8]) -> u128
    requires digits { list_all is_ascii_digit text.now ≡ true }
    requires short { length text.now ≤ 20 }
    ensures { result ≡ digits_value 10 text.now }
{
    let mut number = 0u128;
    for digit in text {
        number = number * 10 + u128::from(*digit - b'0');
    }
    number
}
