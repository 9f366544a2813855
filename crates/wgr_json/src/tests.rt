//! The texts of values.
ghost use Rattle.std.specs.Prelude.{◌≡◌, codes, refl, OnOk};
ghost use Rattle.serde_json.specs.Data.{member, no_members, object, string};
ghost use Rattle.serde_json.specs.Events.{SendsValue};
ghost use Rattle.wgr_json.specs.Values.{count, key_data};

use crate::{List, ToJson, send_member, send_number, send_text, to_json};
use serde::Serializer;
use std::alloc::{AllocGlobal, Global};
use std::process::Abort;
use wgr_text::{Key, Prefix, read_loose};

/// Where the tests show values.
struct InTest;

/// A text with a number and a key.
#[derive(Clone, Copy)]
struct Note<'a> {
    text: &'a str,
    most: u64,
    key: Key,
}

impl<'a> ToJson<InTest> for Note<'a> {
    ghost shown = { λ n. object (member (codes "text") (string n.text.now) (member (codes "most") (count n.most) (member (codes "key") (key_data n.key) no_members))) };

    ghost whole = { λ n. refl };

    fn send<S: Serializer>(&self, alloc: Global, out: &mut S) -> Result<(), S::Error> {
        out.begin_map(Some(3))?;
        send_text("text", self.text, out)?;
        send_number("most", self.most, out)?;
        send_member::<InTest, _, _>(alloc, "key", &self.key, out)?;
        out.end_map()
    }
}

fn prefix(rt: &(impl Abort + AllocGlobal), text: &str) -> Prefix {
    let (address, length) = read_loose(text.as_bytes()).expect(rt, "a prefix");
    Prefix::masked(address, length).expect(rt, "a mask")
}

fn check<T: ToJson<InTest>>(rt: &(impl Abort + AllocGlobal), value: &T, wanted: &str) {
    let text = to_json::<InTest, T>(rt.alloc(), value).expect(rt, "memory");
    assert_eq!(rt; text.as_slice(), wanted.as_bytes());
}

#[test]
fn values(rt: HostRuntime) {
    let none: &[u32] = &[];
    check(&rt, &List(none), "[]");
    let prefixes = [prefix(&rt, "10.8.0.0/24"), prefix(&rt, "fd00:8::/64")];
    check(&rt, &List(&prefixes), r#"["10.8.0.0/24","fd00:8::/64"]"#);
    let numbers: &[u32] = &[1, 4_294_967_295];
    check(&rt, &List(numbers), "[1,4294967295]");
}

/// Quotes and backslashes are escaped (RFC 8259 section 7).
#[test]
fn members(rt: HostRuntime) {
    let note = Note {
        text: "a \"b\\/~",
        most: 18_446_744_073_709_551_615,
        key: Key([1; 32]),
    };
    check(
        &rt,
        &note,
        r#"{"text":"a \"b\\/~","most":18446744073709551615,"key":"AQEBAQEBAQEBAQEBAQEBAQEBAQEBAQEBAQEBAQEBAQE="}"#,
    );
}
