//! A style as the text of a configuration.

ghost use Rattle.std.specs.Prelude.{◌≡◌, ◌≤◌, ◌+◌, ◌*◌, ◌++◌, length, IfOk};
ghost use Rattle.std.specs.Io.KnownBytes.{Appends};
ghost use Rattle.arrayvec.specs.ArrayString.{array_string_len};
ghost use Rattle.fmt_ports.specs.Causes.{AppendsPart, Counts};
ghost use Rattle.style_config.specs.Dump.{heading_of, indent_of, entry_text, entries_text, dump_text};
ghost use Rattle.style_table.specs.Values.{text_of, IsShort};

use arrayvec::ArrayString;
use fmt_ports::{Failed, Sink, write_all};
use itoa::Buffer;
use style_table::{KEYS, Key, Style, Value};

/// Room for the text: each key has at most 128 bytes.
const ROOM: usize = 6144;

/// Writes the style as the text of a configuration, in one piece. It takes no memory.
///
/// After `Failed` a front part of the text was written.
pub fn dump<K: Sink>(style: &Style, sink: &mut K) -> Result<(), Failed>
    ensures ok { IfOk result (λ _. Appends (K.taken sink.old) (K.taken sink.new) (dump_text style.now)) }
    ensures part { AppendsPart (K.taken sink.old) (K.taken sink.new) (dump_text style.now) }
    ensures counts { Counts (K.faults sink.old) (K.faults sink.new) result }
{
    let text = text_of_style(style);
    write_all(sink, text.as_str().as_bytes())
}

/// The text of a style.
fn text_of_style(style: &Style) -> ArrayString<ROOM>
    ensures { result.bytes ≡ dump_text style.now }
{
    let mut text = ArrayString::new();
    text.push_str("---\nLanguage: Cpp\n");
    push_entries(&mut text, style, &KEYS);
    text.push_str("...\n");
    text
}

/// Appends the lines of these keys.
fn push_entries(text: &mut ArrayString<ROOM>, style: &Style, keys: &[Key])
    requires { array_string_len text.old + 128 * length keys.now ≤ 6144 }
    ensures entries { text.new.bytes ≡ text.old.bytes ++ entries_text style.now keys.now }
    ensures short { array_string_len text.new ≤ array_string_len text.old + 128 * length keys.now }
{
    for key in keys {
        push_entry(text, style, *key);
    }
}

/// Appends the lines of a key.
fn push_entry(text: &mut ArrayString<ROOM>, style: &Style, key: Key)
    requires { array_string_len text.old + 128 ≤ 6144 }
    ensures entry { text.new.bytes ≡ text.old.bytes ++ entry_text style.now key }
    ensures short { array_string_len text.new ≤ array_string_len text.old + 128 }
{
    push_heading(text, key);
    text.push_str(indent(key));
    text.push_str(key.label());
    text.push_str(": ");
    push_value(text, style.value(key));
    text.push_str("\n");
}

/// Appends the line of an outer key before the first key under it.
fn push_heading(text: &mut ArrayString<ROOM>, key: Key)
    requires { array_string_len text.old + 42 ≤ 6144 }
    ensures heading { text.new.bytes ≡ text.old.bytes ++ heading_of key }
    ensures short { array_string_len text.new ≤ array_string_len text.old + 42 }
{
    if key.is_first_inside() {
        text.push_str(key.outer());
        text.push_str(":\n");
    }
}

/// The blanks before a key.
fn indent(key: Key) -> &'static str
    ensures text { result.now ≡ indent_of key }
    ensures short { length result.now ≤ 2 }
{
    if key.outer().is_empty() { "" } else { "  " }
}

/// Appends a value.
fn push_value(text: &mut ArrayString<ROOM>, value: Value)
    requires room { array_string_len text.old + 40 ≤ 6144 }
    requires short { IsShort value }
    ensures value { text.new.bytes ≡ text.old.bytes ++ text_of value }
    ensures short { array_string_len text.new ≤ array_string_len text.old + 40 }
{
    match value {
        Value::Number(number) => text.push_str(Buffer::new().format(number)),
        Value::Word(word) => text.push_str(word),
    }
}
