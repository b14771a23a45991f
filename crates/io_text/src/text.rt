//! Text that grows at its end.
ghost use Rattle.std.specs.Prelude.{◌≡◌, ◌+◌, ◌*◌, ◌<◌, ◌≤◌, ◌^◌, ◌==◌, [], ◌∷◌, ◌++◌, ◌⊎◌, OnErr, OnOk, decimal, length, slice_range, take};
ghost use Rattle.io_text.specs.Numbers.{entries_text, entry_word, numbers_text};

use crate::copies::append;
use itoa::write_digits;
use std::alloc::{AllocError, Global};
use std::marker::Model;

/// How much room a text takes beyond what it needs, if it has to take more.
const SPARE: usize = 1024;

/// The most bytes of a number and the space before it, and some to spare.
const WIDTH: usize = 24;

/// The most entries of a row.
const MOST_ENTRIES: usize = 16;

/// A number's text, to be put often once it is made.
#[derive(Clone, Copy)]
pub struct Numeral {
    pub value: u64,
    start: usize,
    bytes: [u8; 48],
    /// A space and the number are in these bytes from `start` to the 24th.
    ghost right: { slice_range bytes start 24 ≡ 32 ∷ decimal value },
    ghost within: { start ≤ 24 },
}

impl Numeral {
    /// This number's text.
    #[inline]
    pub fn of(value: u64) -> Numeral
        ensures { result.value ≡ value }
    {
        let mut bytes = [0; 48];
        let start = write_spaced(value, &mut bytes);
        Numeral {
            value,
            start,
            bytes,
        }
    }

    /// Makes it this number's.
    #[inline(always)]
    pub fn set(&mut self, value: u64)
        ensures { self.new.value ≡ value }
    {
        if self.value != value {
            *self = Numeral::of(value);
        }
    }
}

/// The most bytes of a short text.
const SHORT: usize = 32;

/// At most 32 bytes, to be put often: they are copied faster than as many bytes of a slice.
#[derive(Drop)]
pub struct ShortText {
    bytes: [u8; SHORT],
    len: usize,
}

impl Model for ShortText {
    ghost use Rattle.std.specs.Prelude.{◌≤◌, ℕ, List, take};

    ghost Value = { List ℕ };

    ghost view = { λ short. take short.len short.bytes };

    ghost invariant = { λ short. short.len ≤ 32 };
}

impl ShortText {
    /// These bytes.
    pub fn of(text: &[u8]) -> ShortText
        requires { length text.now ≤ 32 }
        ensures { result ≡ text.now }
    {
        let mut bytes = [0; SHORT];
        let len = place(&mut bytes, 0, text);
        ShortText { bytes, len }
    }
}

/// A text, and room after it.
#[derive(Drop)]
pub struct Text {
    bytes: Vec<u8>,
    len: usize,
}

impl Model for Text {
    ghost use Rattle.std.specs.Prelude.{◌≡◌, ◌≤◌, ℕ, List, length, take};

    ghost Value = { List ℕ };

    ghost view = { λ text. take text.len text.bytes.items };

    ghost invariant = { λ text. text.len ≤ length text.bytes.items };
}

impl Text {
    /// An empty text.
    pub fn new(alloc: Global) -> Text
        ensures { result ≡ [] }
    {
        Text {
            bytes: Vec::new(alloc),
            len: 0,
        }
    }

    /// Makes it empty. Its memory is kept.
    pub fn clear(&mut self)
        ensures { self.new ≡ [] }
    {
        self.len = 0;
    }

    /// Whether nothing was put yet.
    #[inline]
    pub fn is_empty(&self) -> bool
        ensures { result ≡ (length self.now == 0) }
    {
        self.len == 0
    }

    /// All bytes that were put.
    #[inline]
    pub fn as_bytes(&self) -> &[u8]
        ensures { result.now ≡ self.now }
    {
        &self.bytes[..self.len]
    }

    /// Appends more to the text. An `Err` leaves it as it was.
    #[inline(always)]
    pub fn put(&mut self, more: &[u8]) -> Result<(), AllocError>
        ensures text { OnOk result (self.new ≡ self.old ++ more.now) }
        ensures err { OnErr result (self.new ≡ self.old) }
    {
        make_room(&mut self.bytes, self.len, more.len())?;
        self.len = place(&mut self.bytes, self.len, more);
        Ok(())
    }

    /// Appends a long piece to the text, whose place isn't filled before. An `Err` leaves the text as it was.
    pub fn put_long(&mut self, more: &[u8]) -> Result<(), AllocError>
        ensures text { OnOk result (self.new ≡ self.old ++ more.now) }
        ensures err { OnErr result (self.new ≡ self.old) }
    {
        self.bytes.truncate(self.len);
        append(&mut self.bytes, more)?;
        self.len = self.bytes.len();
        Ok(())
    }

    /// Appends a short text to the text. An `Err` leaves it as it was.
    #[inline(always)]
    pub fn put_short(&mut self, short: &ShortText) -> Result<(), AllocError>
        ensures text { OnOk result (self.new ≡ self.old ++ short.now) }
        ensures err { OnErr result (self.new ≡ self.old) }
    {
        make_room(&mut self.bytes, self.len, SHORT)?;
        self.len = place_short(&mut self.bytes, self.len, &short.bytes, short.len);
        Ok(())
    }

    /// Appends two pieces to the text. An `Err` leaves it as it was, or with the first piece.
    #[inline(always)]
    pub fn put_two(&mut self, first: &[u8], second: &[u8]) -> Result<(), AllocError>
        ensures text { OnOk result (self.new ≡ self.old ++ (first.now ++ second.now)) }
        ensures err { OnErr result ((self.new ≡ self.old) ⊎ (self.new ≡ self.old ++ first.now)) }
    {
        self.put(first)?;
        self.put(second)
    }

    /// Appends a space and a number to the text. An `Err` leaves it as it was.
    #[inline]
    pub fn put_spaced_number(&mut self, value: u64) -> Result<(), AllocError>
        ensures text { OnOk result (self.new ≡ self.old ++ 32 ∷ decimal value) }
        ensures err { OnErr result (self.new ≡ self.old) }
    {
        if value < 10 {
            return self.put(&[b' ', b'0' + value as u8]);
        }
        if value < 100 {
            return self.put(&[b' ', b'0' + (value / 10) as u8, b'0' + (value % 10) as u8]);
        }
        self.put_long_number(value)
    }

    /// Does the same for a number of any length.
    #[inline(never)]
    fn put_long_number(&mut self, value: u64) -> Result<(), AllocError>
        ensures text { OnOk result (self.new ≡ self.old ++ 32 ∷ decimal value) }
        ensures err { OnErr result (self.new ≡ self.old) }
    {
        let mut bytes = [0; 48];
        let start = write_spaced(value, &mut bytes);
        self.put_spaced(&bytes, start)
    }

    /// Appends each number after a space to the text.
    pub fn put_spaced_numbers(&mut self, numbers: &[u8]) -> Result<(), AllocError>
        ensures { OnOk result (self.new ≡ self.old ++ numbers_text numbers.now) }
    {
        for number in numbers {
            self.put_spaced_number(u64::from(*number))?;
        }
        Ok(())
    }

    /// Appends a space and a number, whose text is there, to the text. An `Err` leaves it as it was.
    #[inline(always)]
    pub fn put_spaced_numeral(&mut self, numeral: &Numeral) -> Result<(), AllocError>
        ensures text { OnOk result (self.new ≡ self.old ++ 32 ∷ decimal numeral.now.value) }
        ensures err { OnErr result (self.new ≡ self.old) }
    {
        self.put_spaced(&numeral.bytes, numeral.start)
    }

    /// Appends a row to the text: for each entry a space and its number, or a space and `.` for nothing.
    /// `shown` has the numbers that were put last, since most entries of a row are those of the row before
    /// it. An `Err` leaves the text as it was.
    pub fn put_row(
        &mut self,
        row: &[Option<u32>],
        shown: &mut [Numeral; MOST_ENTRIES],
    ) -> Result<(), AllocError>
        requires { length row.now ≤ MOST_ENTRIES }
        ensures text { OnOk result (self.new ≡ self.old ++ entries_text row.now) }
        ensures err { OnErr result (self.new ≡ self.old) }
    {
        make_room(&mut self.bytes, self.len, row.len() * WIDTH)?;
        self.len = place_row(&mut self.bytes, self.len, row, shown);
        Ok(())
    }

    /// Appends what is in these bytes from `start` to the 24th to the text.
    #[inline(always)]
    fn put_spaced(&mut self, number: &[u8; 48], start: usize) -> Result<(), AllocError>
        requires { start ≤ 24 }
        ensures text { OnOk result (self.new ≡ self.old ++ slice_range number.now start 24) }
        ensures err { OnErr result (self.new ≡ self.old) }
    {
        make_room(&mut self.bytes, self.len, WIDTH)?;
        self.len = place_spaced(&mut self.bytes, self.len, number, start);
        Ok(())
    }
}

/// Writes a space and a number so that they end with the 24th byte. Gives where they start.
#[inline(always)]
fn write_spaced(value: u64, bytes: &mut [u8; 48]) -> usize
    ensures within { result ≤ 24 }
    ensures right { slice_range bytes.new result 24 ≡ 32 ∷ decimal value }
{
    let first = write_digits(value, bytes, WIDTH);
    bytes[first - 1] = b' ';
    first - 1
}

/// Makes room for `count` bytes after the first `len`.
#[inline(always)]
fn make_room(bytes: &mut Vec<u8>, len: usize, count: usize) -> Result<(), AllocError>
    requires within { len ≤ length bytes.old.items }
    requires count { count < 2 ^ 63 }
    ensures text { take len bytes.new.items ≡ take len bytes.old.items }
    ensures within { len ≤ length bytes.new.items }
    ensures room { OnOk result (len + count ≤ length bytes.new.items) }
{
    if count <= bytes.len() - len {
        return Ok(());
    }
    grow(bytes, len + count)
}

/// Adds bytes, up to `len` of them and [`SPARE`] more.
#[cold]
#[inline(never)]
fn grow(bytes: &mut Vec<u8>, len: usize) -> Result<(), AllocError>
    requires { length bytes.old.items ≤ len }
    ensures text { take (length bytes.old.items) bytes.new.items ≡ bytes.old.items }
    ensures room { OnOk result (len ≤ length bytes.new.items) }
{
    bytes.resize(len.saturating_add(SPARE), 0)
}

/// Puts bytes at this place. Gives the place after them.
#[inline(always)]
fn place(bytes: &mut [u8], at: usize, more: &[u8]) -> usize
    requires { at + length more.now ≤ length bytes.old }
    ensures end { result ≡ at + length more.now }
    ensures len { length bytes.new ≡ length bytes.old }
    ensures text { take result bytes.new ≡ take at bytes.old ++ more.now }
{
    let end = at + more.len();
    bytes[at..end].copy_from_slice(more);
    end
}

/// Puts what is in the number's bytes from `start` to the 24th at this place. Gives the place after it.
#[inline(always)]
fn place_spaced(bytes: &mut [u8], at: usize, number: &[u8; 48], start: usize) -> usize
    requires within { start ≤ 24 }
    requires room { at + 24 ≤ length bytes.old }
    ensures end { result ≤ at + 24 }
    ensures len { length bytes.new ≡ length bytes.old }
    ensures text { take result bytes.new ≡ take at bytes.old ++ slice_range number.now start 24 }
{
    // As many bytes for each number are copied faster; those after it count as room.
    let end = place(bytes, at, &number[start..start + WIDTH]);
    end - start
}

/// Puts a row at this place. Gives the place after it.
fn place_row(
    bytes: &mut [u8],
    at: usize,
    row: &[Option<u32>],
    shown: &mut [Numeral; MOST_ENTRIES],
) -> usize
    requires few { length row.now ≤ MOST_ENTRIES }
    requires room { at + length row.now * 24 ≤ length bytes.old }
    ensures end { result ≤ length bytes.new }
    ensures len { length bytes.new ≡ length bytes.old }
    ensures text { take result bytes.new ≡ take at bytes.old ++ entries_text row.now }
{
    let mut end = at;
    for index in 0..row.len() {
        end = place_entry(bytes, end, row[index], &mut shown[index]);
    }
    end
}

/// Puts an entry of a row at this place. Gives the place after it.
#[inline(always)]
fn place_entry(bytes: &mut [u8], at: usize, entry: Option<u32>, shown: &mut Numeral) -> usize
    requires { at + 24 ≤ length bytes.old }
    ensures end { result ≤ at + 24 }
    ensures len { length bytes.new ≡ length bytes.old }
    ensures text { take result bytes.new ≡ take at bytes.old ++ 32 ∷ entry_word entry }
{
    let Some(number) = entry else {
        return place(bytes, at, b" .");
    };
    shown.set(u64::from(number));
    place_spaced(bytes, at, &shown.bytes, shown.start)
}

/// Puts the first `len` of these bytes at this place. Gives the place after them.
#[inline(always)]
fn place_short(bytes: &mut [u8], at: usize, short: &[u8; SHORT], len: usize) -> usize
    requires within { len ≤ 32 }
    requires room { at + 32 ≤ length bytes.old }
    ensures end { result ≤ length bytes.new }
    ensures len { length bytes.new ≡ length bytes.old }
    ensures text { take result bytes.new ≡ take at bytes.old ++ take len short.now }
{
    // As many bytes for each short text are copied faster; those after it count as room.
    place(bytes, at, short);
    at + len
}
