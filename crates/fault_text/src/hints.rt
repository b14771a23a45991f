//! What may help at a place of a line.
ghost use Rattle.std.specs.Prelude.{◌≡◌, ◌++◌, ◌≤◌, OnOk, length, map, nat_eq};
ghost use Rattle.std.specs.List.{ends_with, prefix_len, starts_with};
ghost use Rattle.fault_text.specs.Hints.{advice, blank_advice, differs_once, first_word, hint, is_letter, is_near, is_one_edit, is_swapped, letters_of, line_hints, meaning, meaning_or_near, near_hint, near_to, near_word, near_words, nearest, no_word, shape_hints, space_advice, token_hints, unknown_hints, word_hints};
ghost use Rattle.fault_text.specs.Lines.{indented};

use crate::lines::{split_text, write_indented};
use crate::phrases::word_len;
use crate::places::is_blank;
use io_text::Text;
use room_files::split_line;
use std::alloc::AllocError;

/// What may help with a line of a block, a script or a transcript, by the bytes at the place where it leaves its form: a line of
/// bytes, and one of help.
const AT_PLACE: [&[u8]; 16] = [
    b"\r\nthe line ends with a carriage return, as on Windows: mend all lines by  tr -d '\\r' < FILE > NEW",
    b"\xef\xbb\xbf\nthe file begins with a byte-order mark: save it without one",
    b"\t\nhere is a tab: one space parts two words",
    b"  \none space parts two words",
    b",\none space parts two values, with no comma",
    b"-\nno number has a sign",
    b"+\nno number has a sign",
    b"[\nthere are no brackets: one space parts two values",
    b"(\nthere are no parentheses: one space parts two values",
    b":\nthere is no colon: one space parts two words",
    b";\nthere is no semicolon: each command is a line of its own",
    b" after \na script's `crash` is done at once; `crash I after K` is a line of a block",
    b"\xff\xfe\nthe file is in UTF-16: save it in UTF-8",
    b"\xfe\xff\nthe file is in UTF-16: save it in UTF-8",
    b"\x7fELF\nthis is a program, and no text",
    b"\0\nhere is a byte 0, which no text has; if the file is in UTF-16, save it in UTF-8",
];

/// The same by the bytes with which the line begins.
const AT_START: [&[u8]; 2] = [b"#\nthere are no comments", b"//\nthere are no comments"];

/// Lines that are no block's, by the bytes with which they begin, and where they belong.
pub(crate) const NO_BLOCK: [&[u8]; 9] = [
    b"open\nthis looks like a script, which `bgview trace` and `bgview draw` read",
    b"step \nthis looks like a script, which `bgview trace` and `bgview draw` read",
    b"settle \nthis looks like a script, which `bgview trace` and `bgview draw` read",
    b"report \nthis looks like a script, which `bgview trace` and `bgview draw` read",
    b"close \nthis looks like a script, which `bgview trace` and `bgview draw` read",
    b"events\nthis looks like a transcript, which `bgview why` reads",
    b"task \na task is the line after the turns, in a block that begins with `bgsim 2`",
    b"{\nthis looks like JSON: a room is a block of lines, from `bgsim 1` to `end`",
    b"<\nthis looks like HTML: a room is a block of lines, from `bgsim 1` to `end`",
];

/// Lines that are no event lines.
pub const NO_EVENT: [&[u8]; 6] = [
    b"open\nthis looks like a script, which `bgview trace` and `bgview draw` read",
    b"step \nthis looks like a script, which `bgview trace` and `bgview draw` read",
    b"crash \nthis looks like a script, which `bgview trace` and `bgview draw` read",
    b"settle \nthis looks like a script, which `bgview trace` and `bgview draw` read",
    b"report \nthis looks like a script, which `bgview trace` and `bgview draw` read",
    b"close \nthis looks like a script, which `bgview trace` and `bgview draw` read",
];

/// Lines that are no commands.
pub const NO_COMMAND: [&[u8]; 5] = [
    b"run \nthere is no `run`: `step NAME I C` lets a simulator take C steps, and `settle NAME` lets all go on to their ends",
    b"restart \na simulator that has crashed does not start again",
    b"start \na room is opened by a line `open` and its block",
    b"end\na line `end` is the last of a block, which comes after a line `open`",
    b"bgsim \nin a script a line `open` comes before each block; `bgview sample` and `bgview outcomes` read blocks only, `bgview why` blocks and events",
];

/// What may help with a protocol's text, by the bytes from one byte before the place of its fault on.
const AROUND_TOKEN: [&[u8]; 1] = [b"<>\n`!=` says that two values differ"];

/// The same by the bytes at that place.
const AT_TOKEN: [&[u8]; 24] = [
    b"\r\nthe line ends with a carriage return, as on Windows: mend all lines by  tr -d '\\r' < FILE > NEW",
    b"\t\nhere is a tab: spaces and line ends part tokens",
    b"#\nthere are no comments",
    b"//\nthere are no comments",
    b"==\na comparison comes after `when` or `and`, has two sides, and has no parentheses around it",
    b"=<\n`<=` says that a value is at most another",
    b"=>\n`>=` says that a value is at least another",
    b"=\n`==` compares two values",
    b"!=\na comparison comes after `when` or `and`, has two sides, and has no parentheses around it",
    b"!\n`!=` says that two values differ",
    b"<\na comparison comes after `when` or `and`, has two sides, and has no parentheses around it",
    b">\na comparison comes after `when` or `and`, has two sides, and has no parentheses around it",
    b"&\n`and` joins two comparisons",
    b"|\nthere is no `or`: write a rule for each case",
    b"(\nof the words only `cell`, `seen` and `equal` take a value in parentheses",
    b",\nthere is no comma: `cell`, `seen` and `equal` take one value in parentheses",
    b"[\nthere are no brackets: `cell(K)` is the entry of process K",
    b"{\nthere are no braces: a rule is `when COMPARISON ACTION;`, and the last is `else ACTION;`",
    b"\"\nthere are no texts: each value is a number",
    b"'\nthere are no texts: each value is a number",
    b".\nno number has a fraction",
    b":\nthere is no colon: an action comes after the comparisons, or after `else`",
    b"-\nno number has a sign",
    b"\xef\xbb\xbf\nhere is a byte-order mark: save the file without one",
];

/// Words of other languages, and what this one has for them.
const OTHER_WORDS: [&[u8]; 7] = [
    b"or\nthere is no `or`: write a rule for each case",
    b"if\nthere is no `if`: a rule is `when COMPARISON ACTION;`, and the last is `else ACTION;`",
    b"not\nthere is no `not`: `!=` says that two values differ",
    b"then\nthere is no `then`: the action comes after the comparisons",
    b"return\nthere is no `return`: `decide VALUE` ends a process",
    b"end\n`end` is a line of its own, with no blank in it",
    b"wait\nno process waits: `else write mine` writes its value once more, and the process looks again in the next round",
];

/// The words with which lines begin.
const LINE_WORDS: [&[u8]; 15] = [
    b"bgsim",
    b"room",
    b"inputs",
    b"simulators",
    b"rounds",
    b"turns",
    b"task",
    b"crash",
    b"protocol",
    b"events",
    b"open",
    b"step",
    b"settle",
    b"report",
    b"close",
];

/// The words of the language.
const WORDS: [&[u8]; 17] = [
    b"first", b"when", b"and", b"write", b"decide", b"else", b"input", b"id", b"n", b"round",
    b"mine", b"count", b"min", b"max", b"cell", b"seen", b"equal",
];

/// Writes what may help with a line that has these bytes before the place of its fault and these from there on.
pub(crate) fn write_line_hints(
    output: &mut Text,
    line: &[u8],
    front: &[u8],
    back: &[u8],
) -> Result<(), AllocError>
    ensures { OnOk result (output.new ≡ output.old ++ line_hints line.now front.now back.now) }
{
    write_hint(output, advice(&AT_PLACE, back))?;
    write_hint(output, advice(&AT_START, line))?;
    write_shape_hints(output, line, front, back)
}

/// Writes what may help with a blank line, with blanks that are too many, and with a word that is near another.
#[tactic(auto, unfolding(crate::specs::Hints::shape_hints))]
fn write_shape_hints(
    output: &mut Text,
    line: &[u8],
    front: &[u8],
    back: &[u8],
) -> Result<(), AllocError>
    ensures { OnOk result (output.new ≡ output.old ++ shape_hints line.now front.now back.now) }
{
    write_hint(output, space_advice(front, back))?;
    write_hint(output, blank_advice(line))?;
    write_near_hint(output, first_word(line), &LINE_WORDS)
}

/// Writes what may help with a protocol's text that has these bytes from one before the place of its fault on, and these from there on.
pub(crate) fn write_token_hints(
    output: &mut Text,
    around: &[u8],
    back: &[u8],
) -> Result<(), AllocError>
    ensures { OnOk result (output.new ≡ output.old ++ token_hints around.now back.now) }
{
    match advice(&AROUND_TOKEN, around) {
        [] => write_hint(output, advice(&AT_TOKEN, back)),
        help => write_hint(output, help),
    }
}

/// Writes what may help with a text that begins with a word, if it does, which the language doesn't have.
pub(crate) fn write_unknown_hints(output: &mut Text, back: &[u8]) -> Result<(), AllocError>
    ensures { OnOk result (output.new ≡ output.old ++ unknown_hints back.now) }
{
    let (word, _) = split_text(back, letters_of(back));
    match word {
        [] => Ok(()),
        _ => write_word_hints(output, word),
    }
}

/// Writes what the language has for a word that it doesn't have.
fn write_word_hints(output: &mut Text, word: &[u8]) -> Result<(), AllocError>
    ensures { OnOk result (output.new ≡ output.old ++ word_hints word.now) }
{
    write_meaning_or_near(output, word, meaning(&OTHER_WORDS, word))
}

/// Writes what the language has for a word of another, or else that it doesn't have the word, and which of its words may be meant.
fn write_meaning_or_near(output: &mut Text, word: &[u8], words: &[u8]) -> Result<(), AllocError>
    ensures { OnOk result (output.new ≡ output.old ++ meaning_or_near word.now words.now) }
{
    match words {
        [] => write_near_to(output, word),
        _ => write_hint(output, words),
    }
}

fn write_near_to(output: &mut Text, word: &[u8]) -> Result<(), AllocError>
    ensures { OnOk result (output.new ≡ output.old ++ near_to word.now) }
{
    write_no_word(output, word)?;
    write_near_hint(output, word, &WORDS)
}

fn write_no_word(output: &mut Text, word: &[u8]) -> Result<(), AllocError>
    ensures { OnOk result (output.new ≡ output.old ++ indented (no_word word.now)) }
{
    write_quoted(output, b"the language has no word `", word, b"`")
}

/// Writes a line with a word between two texts.
pub(crate) fn write_quoted(
    output: &mut Text,
    before: &[u8],
    word: &[u8],
    after: &[u8],
) -> Result<(), AllocError>
    ensures { OnOk result (output.new ≡ output.old ++ indented (before.now ++ (word.now ++ after.now))) }
{
    output.put(b"    ")?;
    output.put(before)?;
    output.put_two(word, after)?;
    output.put(b"\n")
}

/// Writes a line that may help, unless it is empty.
fn write_hint(output: &mut Text, words: &[u8]) -> Result<(), AllocError>
    ensures { OnOk result (output.new ≡ output.old ++ hint words.now) }
{
    match words {
        [] => Ok(()),
        _ => write_indented(output, words),
    }
}

/// What helps with a text, by the first entry with whose first line it begins. The entry's second line is the help.
#[tactic(auto, unfolding(crate::specs::Hints::advice))]
fn advice<'a>(entries: &'a [&'a [u8]], text: &[u8]) -> &'a [u8]
    ensures { result.now ≡ advice (map (λ entry. entry.now) entries.now) text.now }
{
    let [entry, others @ ..] = entries else {
        return &[];
    };
    let (start, help) = split_line(entry);
    if text.starts_with(start) {
        help
    } else {
        advice(others, text)
    }
}

/// The same for a word, by the first entry whose first line it is.
#[tactic(auto, unfolding(crate::specs::Hints::meaning))]
fn meaning<'a>(entries: &'a [&'a [u8]], word: &[u8]) -> &'a [u8]
    ensures { result.now ≡ meaning (map (λ entry. entry.now) entries.now) word.now }
{
    let [entry, others @ ..] = entries else {
        return &[];
    };
    let (known, help) = split_line(entry);
    if word == known {
        help
    } else {
        meaning(others, word)
    }
}

/// Writes what may help with a text, by the first entry with whose first line it begins.
pub fn write_advice(output: &mut Text, entries: &[&[u8]], text: &[u8]) -> Result<(), AllocError>
    ensures { OnOk result (output.new ≡ output.old ++ hint (advice (map (λ entry. entry.now) entries.now) text.now)) }
{
    write_hint(output, advice(entries, text))
}

/// What helps with a space before which a line should have ended, or before which there is another one.
fn space_advice(front: &[u8], back: &[u8]) -> &'static [u8]
    ensures { result.now ≡ space_advice front.now back.now }
{
    if !back.starts_with(b" ") {
        return &[];
    }
    if is_blank(back) {
        return b"no line ends with a space";
    }
    if front.ends_with(b" ") {
        return b"here is a second space: one space parts two words";
    }
    &[]
}

/// What helps with a blank line.
fn blank_advice(line: &[u8]) -> &'static [u8]
    ensures { result.now ≡ blank_advice line.now }
{
    if is_blank(line) {
        b"blank lines may be only in a protocol's text"
    } else {
        &[]
    }
}

/// The bytes before a line's first space.
pub(crate) fn first_word(line: &[u8]) -> &[u8]
    ensures { result.now ≡ first_word line.now }
{
    let (word, _) = split_text(line, word_len(line));
    word
}

/// How many letters a text begins with.
pub(crate) fn letters_of(text: &[u8]) -> usize
    ensures { result ≡ letters_of text.now }
{
    text.iter().take_while(|byte| is_letter(**byte)).count()
}

fn is_letter(byte: u8) -> bool
    ensures { result ≡ is_letter byte }
{
    matches!(byte, b'a'..=b'z' | b'A'..=b'Z' | b'_')
}

/// Writes which of these words may be meant, if this one has two bytes at least and is near one.
fn write_near_hint(output: &mut Text, word: &[u8], known: &[&[u8]]) -> Result<(), AllocError>
    ensures { OnOk result (output.new ≡ output.old ++ near_hint word.now (map (λ entry. entry.now) known.now)) }
{
    if word.len() < 2 {
        return Ok(());
    }
    write_near_words(output, nearest(word, known))
}

pub(crate) fn write_near_words(output: &mut Text, known: &[u8]) -> Result<(), AllocError>
    ensures { OnOk result (output.new ≡ output.old ++ near_words known.now) }
{
    match known {
        [] => Ok(()),
        _ => write_near_word(output, known),
    }
}

fn write_near_word(output: &mut Text, known: &[u8]) -> Result<(), AllocError>
    ensures { OnOk result (output.new ≡ output.old ++ near_word known.now) }
{
    write_quoted(output, b"did you mean `", known, b"`?")
}

/// The first of these words that is near this one.
#[tactic(auto, unfolding(crate::specs::Hints::nearest))]
fn nearest<'a>(word: &[u8], known: &'a [&'a [u8]]) -> &'a [u8]
    ensures { result.now ≡ nearest word.now (map (λ entry. entry.now) known.now) }
{
    let [entry, others @ ..] = known else {
        return &[];
    };
    if is_near(word, entry) {
        entry
    } else {
        nearest(word, others)
    }
}

/// Whether a word is one edit away from a known one, or is that word in other letters, small or capital.
pub(crate) fn is_near(word: &[u8], known: &[u8]) -> bool
    ensures { result ≡ is_near word.now known.now }
{
    is_one_edit(word, known) || (word.eq_ignore_ascii_case(known) && word != known)
}

/// Whether two words differ in one byte, or by one that is there or not, or by two that have changed places.
#[tactic(auto, unfolding(crate::specs::Hints::is_one_edit))]
fn is_one_edit(word: &[u8], known: &[u8]) -> bool
    ensures { result ≡ is_one_edit word.now known.now }
{
    let [x, xs @ ..] = word else {
        return known.len() == 1;
    };
    let [y, ys @ ..] = known else {
        return xs.is_empty();
    };
    if *x == *y {
        return is_one_edit(xs, ys);
    }
    xs == ys || xs == known || word == ys || is_swapped(word, known)
}

/// Whether two words are the same but for their first two bytes, which have changed places.
fn is_swapped(word: &[u8], known: &[u8]) -> bool
    ensures { result ≡ is_swapped word.now known.now }
{
    match (word, known) {
        ([x, x2, xs @ ..], [y, y2, ys @ ..]) => *x == *y2 && *x2 == *y && xs == ys,
        _ => false,
    }
}
