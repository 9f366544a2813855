//! Which words a client may send to a service: those of an order or of a reading, as the command on a file takes them.
ghost use Rattle.std.specs.Prelude.{◌≡◌, ℕ, List, is_some, map, option_map};
ghost use Rattle.wgr_words.specs.Sent.{may_be_sent, sent_alone, sent_as_json, sent_by_digest, sent_of_one, sent_of_two, sent_without_option};

/// Whether the words are those of an order or of a reading, with the options that belong to it: `--digest` to
/// `token-end` alone, `--json` to `show`.
///
/// A token is never one of the words, since every user of a machine can see them. No field's form is checked.
pub fn may_be_sent(words: &[&str], digest: Option<&str>, is_json: bool) -> bool
    ensures { result ≡ may_be_sent (map (λ word. word.now) words.now) (option_map (λ text. text.now) digest.entry) is_json }
{
    match (digest, is_json) {
        (None, false) => stand_without_option(words),
        (None, true) => stand_with_json(words),
        (Some(_), false) => stand_with_digest(words),
        (Some(_), true) => false,
    }
}

fn stand_without_option(words: &[&str]) -> bool
    ensures { result ≡ is_some (sent_without_option (map (λ word. word.now) words.now)) }
{
    match words {
        [word] => stands_alone(word),
        [word, field] => may_have_field(word, field),
        [word, first, second] => may_have_fields(word, first, second),
        [word, _, _, _, _, _, _, _] => *word == "network-add",
        _ => false,
    }
}

fn stands_alone(word: &str) -> bool
    ensures { result ≡ is_some (sent_alone word.now) }
{
    matches!(word, "token-end" | "status" | "show")
}

// A line can't show the tenant `--json`: there it is the option.
fn may_have_field(word: &str, field: &str) -> bool
    ensures { result ≡ is_some (sent_of_one word.now field.now) }
{
    match word {
        "tenant-add" | "token-grant" | "backup" => true,
        "show" => field != "--json",
        _ => false,
    }
}

// A word behind the tenant of a token that is no right may be the token.
fn may_have_fields(word: &str, first: &str, second: &str) -> bool
    ensures { result ≡ is_some (sent_of_two word.now first.now second.now) }
{
    match word {
        "network-end" => true,
        "token-grant" => matches!(second, "full" | "read"),
        _ => false,
    }
}

fn stand_with_digest(words: &[&str]) -> bool
    ensures { (digest : List ℕ) → result ≡ is_some (sent_by_digest (map (λ word. word.now) words.now) digest) }
{
    match words {
        [word] => *word == "token-end",
        _ => false,
    }
}

fn stand_with_json(words: &[&str]) -> bool
    ensures { result ≡ is_some (sent_as_json (map (λ word. word.now) words.now)) }
{
    match words {
        [word] | [word, _] => *word == "show",
        _ => false,
    }
}
