//! Event lines, cut into their parts.
ghost use Rattle.std.specs.Prelude.{◌≡◌, ◌∷◌, ◌≤◌, decimal, length, IfOk, IfErr, IfSome, MatchOption, Some, true, ◌++◌, List, ℕ, codes, if◌then◌else◌, Err};
ghost use Rattle.std.specs.List.{count_by, list_all};
ghost use Rattle.std.specs.Option.{option_copied};
ghost use Rattle.room_spec.specs.Names.{is_name};
ghost use Rattle.room_spec.specs.Texts.{is_space, fields_of, pieces_of};
ghost use Rattle.protocol_lang.specs.Numbers.{is_digit, number_of, value_of_digits};
ghost use Rattle.protocol_lang.specs.Results.{Gives};
ghost use Rattle.transcript.specs.Lines.{word_text, IsStray, number_in, entry_in, entries_in, value_in, row_in, event_of, event_in, line_in, event_said, line_said, IsCutInto};
ghost use Rattle.transcript.specs.declared.fault.LineFault.TheVariants.{BadName};

use crate::event::Event;
use crate::fault::LineFault;
use crate::word::EventWord;
use protocol_lang::{View, read_number};
use room_spec::{MAX_PROCESSES, Name, cut, cut_near};
use std::marker::Model;

/// The longest event line, in bytes.
pub(crate) const MAX_LINE: usize = 256;

/// The greatest number of a process.
pub(crate) const MAX_PROCESS: u32 = 15;

/// From this many bytes on, `cut` compares the first bytes of a line at once.
const LONG: usize = 16;

/// An event line, cut into its parts. Its name may be none, and its values aren't read yet.
#[derive(Drop)]
pub struct EventLine<'a> {
    name: &'a [u8],
    process: u8,
    word: EventWord,
    values: &'a [u8],
}

impl<'a> Model for EventLine<'a> {
    ghost use Rattle.transcript.specs.Lines.{LineParts};

    ghost Value = { LineParts };

    ghost view = { λ line. record { name = line.name.now; process = line.process; word = line.word; values = line.values.now } };
}

impl<'a> EventLine<'a> {
    /// Cuts a line, without its line end, into its parts.
    #[inline(always)]
    pub fn split(line: &'a [u8]) -> Result<EventLine<'a>, LineFault>
        // Its fields are those of its parts.
        ensures parts { IfOk result (IsCutInto line.now) }
        // What it says is what they say.
        ensures said { IfOk result (λ parts. line_in line.now ≡ line_said parts) }
        // It is the first of the line's faults, in the order of the format.
        ensures fault { IfErr result (λ fault. line_in line.now ≡ Err fault) }
    {
        if line.len() > MAX_LINE {
            return Err(LineFault::TooLong);
        }
        let (name, fields) = cut_name(line);
        match split_fields(fields) {
            Ok((process, word, values)) => Ok(EventLine {
                name,
                process,
                word,
                values,
            }),
            Err(fault) => Err(fault_behind(name, fault)),
        }
    }

    /// Its first field, which is the room's name if it is a name.
    pub fn name(&self) -> &[u8]
        ensures { result.now ≡ self.now.name }
    {
        self.name
    }

    /// The number of the process, 0 to 15.
    pub fn process(&self) -> u8
        ensures { result ≡ self.now.process }
    {
        self.process
    }

    /// What its word says that the process did.
    pub fn word(&self) -> EventWord
        ensures { result ≡ self.now.word }
    {
        self.word
    }

    /// What follows the word: a value, or the entries of a snapshot.
    pub fn values(&self) -> &[u8]
        ensures { result.now ≡ self.now.values }
    {
        self.values
    }

    /// The one value that follows the word, as in a write and in a decision.
    #[inline(always)]
    pub fn value(&self) -> Result<u32, LineFault>
        ensures { result ≡ value_in (fields_of self.now.values) }
    {
        read_value(self.values)
    }

    /// The event that it says, whatever its name is.
    #[inline(always)]
    pub fn event(&self) -> Result<Event, LineFault>
        ensures { result ≡ event_said self.now }
    {
        read_deed(self.process, self.word, self.values)
    }

    /// The room's name, and the event that it says.
    pub fn read(&self) -> Result<(Name, Event), LineFault>
        ensures { result ≡ line_said self.now }
    {
        let name = Name::read(self.name).ok_or(LineFault::BadName)?;
        let event = self.event()?;
        Ok((name, event))
    }
}

/// The first field of a line, and what follows it.
#[inline(always)]
fn cut_name(line: &[u8]) -> (&[u8], Option<&[u8]>)
    ensures { fields_of line.now ≡ result.0.now ∷ pieces_of is_space (option_copied result.1) }
{
    if line.len() < LONG {
        cut_near(line, b' ')
    } else {
        cut(line, b' ')
    }
}

/// The process, the word and what follows it, of the fields after the name.
fn split_fields(fields: Option<&[u8]>) -> Result<(u8, EventWord, &[u8]), LineFault>
    ensures parts { IfOk result (λ parts. pieces_of is_space (option_copied fields.entry) ≡ decimal parts.0 ∷ word_text parts.1 ∷ fields_of parts.2.now) }
    ensures range { IfOk result (λ parts. parts.0 ≤ MAX_PROCESS) }
    ensures fault { IfErr result (λ fault. event_in (pieces_of is_space (option_copied fields.entry)) ≡ Err fault) }
{
    let Some(fields) = fields else {
        return Err(LineFault::BadLength);
    };
    let (process, deed) = cut_near(fields, b' ');
    let Some(deed) = deed else {
        return Err(LineFault::BadLength);
    };
    let Some((word, values)) = cut_word(deed) else {
        return Err(fault_of_stray(process, deed));
    };
    let process = read_up_to(MAX_PROCESS, process)?;
    Ok((process as u8, word, values))
}

/// The word of an event and what follows it, if the text begins with one and a space.
#[inline(always)]
fn cut_word(deed: &[u8]) -> Option<(EventWord, &[u8])>
    ensures { MatchOption result (IsStray deed.now) (λ cut. fields_of deed.now ≡ word_text cut.0 ∷ fields_of cut.1.now) }
{
    if let Some(values) = after_write(deed) {
        return Some((EventWord::Write, values));
    }
    if let Some(values) = after_snap(deed) {
        return Some((EventWord::Snap, values));
    }
    let values = after_decide(deed)?;
    Some((EventWord::Decide, values))
}

fn after_write(deed: &[u8]) -> Option<&[u8]>
    ensures { MatchOption result ((values : List ℕ) → deed.now ≡ codes "write " ++ values → ⊥) (λ values. deed.now ≡ codes "write " ++ values.now) }
{
    let [b'w', b'r', b'i', b't', b'e', b' ', values @ ..] = deed else {
        return None;
    };
    Some(values)
}

fn after_snap(deed: &[u8]) -> Option<&[u8]>
    ensures { MatchOption result ((values : List ℕ) → deed.now ≡ codes "snap " ++ values → ⊥) (λ values. deed.now ≡ codes "snap " ++ values.now) }
{
    let [b's', b'n', b'a', b'p', b' ', values @ ..] = deed else {
        return None;
    };
    Some(values)
}

fn after_decide(deed: &[u8]) -> Option<&[u8]>
    ensures { MatchOption result ((values : List ℕ) → deed.now ≡ codes "decide " ++ values → ⊥) (λ values. deed.now ≡ codes "decide " ++ values.now) }
{
    let [b'd', b'e', b'c', b'i', b'd', b'e', b' ', values @ ..] = deed else {
        return None;
    };
    Some(values)
}

/// The fault of the fields after the name where the word is none of an event, or nothing follows it.
fn fault_of_stray(process: &[u8], deed: &[u8]) -> LineFault
    requires { IsStray deed.now }
    ensures { event_in (process.now ∷ fields_of deed.now) ≡ Err result }
{
    let (_, Some(_)) = cut_near(deed, b' ') else {
        return LineFault::BadLength;
    };
    match read_up_to(MAX_PROCESS, process) {
        Ok(_) => LineFault::BadWord,
        Err(fault) => fault,
    }
}

/// The first fault of a line with this name and this fault after it.
fn fault_behind(name: &[u8], fault: LineFault) -> LineFault
    ensures { result ≡ (if is_name name.now then fault else BadName) }
{
    match Name::read(name) {
        Some(_) => fault,
        None => LineFault::BadName,
    }
}

/// Reads what process `p` did, by its word and the fields after it.
#[inline(always)]
fn read_deed(p: u8, word: EventWord, fields: &[u8]) -> Result<Event, LineFault>
    ensures { result ≡ event_of (word_text word) (fields_of fields.now) p }
{
    match word {
        EventWord::Write => {
            let v = read_value(fields)?;
            Ok(Event::Write { p, v })
        }
        EventWord::Snap => {
            let row = read_row(fields)?;
            Ok(Event::Snap { p, row })
        }
        EventWord::Decide => {
            let v = read_value(fields)?;
            Ok(Event::Decide { p, v })
        }
    }
}

/// The number that a field is, of at most `most`.
fn read_up_to(most: u32, field: &[u8]) -> Result<u32, LineFault>
    ensures value { result ≡ number_in most field.now }
    ensures range { IfOk result (λ number. number ≤ most) }
{
    match read_number(field).map(u32::try_from) {
        Some(Ok(number)) if number <= most => Ok(number),
        _ => Err(LineFault::BadNumber),
    }
}

/// The most digits of a number that is read in place.
const MAX_DIGITS: usize = 9;

/// Reads the one value that `fields` has to be. Most are short numbers.
#[inline(always)]
fn read_value(fields: &[u8]) -> Result<u32, LineFault>
    ensures { result ≡ value_in (fields_of fields.now) }
{
    match read_short(fields) {
        Some(value) => Ok(value),
        None => read_long(fields),
    }
}

/// The number of at most nine digits that the text is, if it is one.
#[inline(always)]
fn read_short(text: &[u8]) -> Option<u32>
    ensures { IfSome result (λ number. number_of text.now ≡ Some number) }
{
    match text {
        [] | [b'0', _, ..] => None,
        _ => read_digits(text),
    }
}

/// The number that at most nine digits write.
#[inline(always)]
fn read_digits(text: &[u8]) -> Option<u32>
    ensures { IfSome result (λ number. (list_all is_digit text.now ≡ true) × (number ≡ value_of_digits text.now)) }
{
    if text.len() > MAX_DIGITS {
        return None;
    }
    let mut number: u32 = 0;
    for byte in text {
        if !byte.is_ascii_digit() {
            return None;
        }
        number = number * 10 + u32::from(*byte - b'0');
    }
    Some(number)
}

/// The same for fields of any length. A number has no space in it, so a good one needs no cut.
#[inline(never)]
fn read_long(fields: &[u8]) -> Result<u32, LineFault>
    ensures { result ≡ value_in (fields_of fields.now) }
{
    if let Ok(value) = read_up_to(u32::MAX, fields) {
        return Ok(value);
    }
    cut_value(fields)
}

fn cut_value(fields: &[u8]) -> Result<u32, LineFault>
    ensures { result ≡ value_in (fields_of fields.now) }
{
    match cut_near(fields, b' ') {
        (field, None) => read_up_to(u32::MAX, field),
        (_, Some(_)) => Err(LineFault::BadLength),
    }
}

/// Reads the entries of a snapshot, whose number is judged before each of them.
fn read_row(fields: &[u8]) -> Result<View, LineFault>
    ensures { Gives (λ row. row.items) result (row_in (fields_of fields.now)) }
{
    if spaces(fields) >= MAX_PROCESSES {
        return Err(LineFault::BadLength);
    }
    read_entries(fields)
}

/// Reads the entries of a snapshot.
fn read_entries(fields: &[u8]) -> Result<View, LineFault>
    requires { length (fields_of fields.now) ≤ MAX_PROCESSES }
    ensures { Gives (λ row. row.items) result (entries_in (fields_of fields.now)) }
{
    let mut row = View::new();
    let mut rest = Some(fields);
    while let Some(fields) = rest {
        let (field, others) = cut_near(fields, b' ');
        row.push(read_entry(field)?);
        rest = others;
    }
    Ok(row)
}

/// How many spaces the text has.
fn spaces(text: &[u8]) -> usize
    ensures { result ≡ count_by is_space text.now }
{
    text.iter().filter(|byte| **byte == b' ').count()
}

/// Reads an entry of a snapshot: a value, or `.` for nothing.
fn read_entry(field: &[u8]) -> Result<Option<u32>, LineFault>
    ensures { result ≡ entry_in field.now }
{
    if let [b'.'] = field {
        return Ok(None);
    }
    let value = read_up_to(u32::MAX, field)?;
    Ok(Some(value))
}
