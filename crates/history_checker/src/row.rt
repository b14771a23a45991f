//! What a snapshot of a room shows now, as values and as the text that says them.
ghost use Rattle.std.specs.Prelude.{◌≡◌, ◌∷◌, ◌++◌, ◌+◌, ◌≤◌, ◌<◌, IsTrue, IfOk, OnErr, OnOk, length, map, sum, take, drop, decimal, [], ℕ, List, Option, None, Some, option_map, replicate, slice_set};
ghost use Rattle.history_checker.specs.Shown.{IsShown, MayShowLasts, SaysRow, ShowsLasts, before};

use arrayvec::ArrayVec;
use itoa::Buffer;
use protocol_lang::{MAX_PROCESSES, View};
use std::alloc::{AllocError, Global};
use std::marker::Model;
use std::mem::swap;

/// The most bytes of an entry: a space, and the digits of the greatest value.
const MAX_WIDTH: usize = 11;

/// The last writes of a room's processes, and their text, in which each entry comes after a space.
/// If an allocation failed it shows nothing.
#[derive(Drop)]
pub(crate) struct Row {
    last: View,
    text: Vec<u8>,
    /// How many bytes of the text each entry has.
    widths: ArrayVec<u8, MAX_PROCESSES>,
    /// Where the next text is put together.
    next: Vec<u8>,
}

impl Model for Row {
    ghost use Rattle.std.specs.Prelude.{ℕ, List, Option};
    ghost use Rattle.history_checker.specs.Shown.{IsShown};

    ghost Value = { List (Option ℕ) };

    ghost view = { λ row. row.last.items };

    ghost invariant = { λ row. IsShown row.last.items row.text.items row.widths.items };
}

/// The fewest processes of a room that has a row.
const MANY: usize = 4;

impl Row {
    /// The row of a room of many processes that have not written.
    pub(crate) fn of_many(alloc: Global, n: usize) -> Result<Option<Box<Row>>, AllocError>
        requires { n ≤ MAX_PROCESSES }
        ensures { IfOk result (λ row. MayShowLasts (replicate n None) (option_map (λ row. row.value) row)) }
    {
        if n < MANY {
            return Ok(None);
        }
        Ok(Some(Box::new(alloc, Row::open(alloc, n)?)?))
    }

    /// The row of `n` processes that have not written.
    pub(crate) fn open(alloc: Global, n: usize) -> Result<Row, AllocError>
        requires { n ≤ MAX_PROCESSES }
        ensures { IfOk result (λ row. row ≡ replicate n None) }
    {
        let mut row = Row {
            last: View::new(),
            text: Vec::with_capacity(alloc, MAX_WIDTH * n)?,
            widths: ArrayVec::new(),
            next: Vec::with_capacity(alloc, MAX_WIDTH * n)?,
        };
        for _ in 0..n {
            row.add_silent()?;
        }
        Ok(row)
    }

    /// Whether the text says these entries, with a space between each two.
    pub(crate) fn is_said_by(&self, text: &[u8]) -> bool
        ensures { IsTrue result → SaysRow (32 ∷ text.now) self.now }
    {
        match self.text.as_slice().split_first() {
            Some((_, entries)) => entries == text,
            None => false,
        }
    }

    /// What it shows.
    pub(crate) fn last(&self) -> &View
        ensures last { result.now.items ≡ self.now }
        ensures few { length self.now ≤ MAX_PROCESSES }
    {
        &self.last
    }

    fn add_silent(&mut self) -> Result<(), AllocError>
        requires { length self.old < MAX_PROCESSES }
        ensures { OnOk result (self.new ≡ self.old ++ None ∷ []) }
    {
        self.text.extend_from_slice(b" .")?;
        self.widths.push(2);
        self.last.push(None);
        Ok(())
    }

    /// Process `p` has written the value.
    pub(crate) fn write(&mut self, p: usize, value: u32)
        ensures { (lasts : List (Option ℕ)) → ShowsLasts lasts self.old → ShowsLasts (slice_set lasts p (Some value)) self.new }
    {
        if p >= self.last.len() {
            return;
        }
        if self.put(p, value).is_err() {
            self.hide();
        }
    }

    /// Shows nothing from now on.
    fn hide(&mut self)
        ensures { self.new ≡ [] }
    {
        self.last.clear();
        self.text.clear();
        self.widths.clear();
    }

    fn put(&mut self, p: usize, value: u32) -> Result<(), AllocError>
        requires { p < length self.old }
        ensures { OnOk result (self.new ≡ slice_set self.old p (Some value)) }
    {
        let start = before(self.widths.as_slice(), p);
        let end = start + usize::from(self.widths[p]);
        let mut buffer = Buffer::new();
        let digits = buffer.format(value).as_bytes();
        put_digits(&mut self.text, &mut self.next, start, end, digits)?;
        self.widths[p] = digits.len() as u8 + 1;
        self.last[p] = Some(value);
        Ok(())
    }
}

/// Puts a space and digits in place of some bytes of a text. Digits that fill their place go there, others by way of `next`.
fn put_digits(
    text: &mut Vec<u8>,
    next: &mut Vec<u8>,
    start: usize,
    end: usize,
    digits: &[u8],
) -> Result<(), AllocError>
    requires { (start ≤ end) × (end ≤ length text.old.items) }
    ensures put { OnOk result (text.new.items ≡ take start text.old.items ++ 32 ∷ (digits.now ++ drop end text.old.items)) }
    ensures err { OnErr result (text.new.items ≡ text.old.items) }
{
    if end - start == digits.len() + 1 {
        overwrite(text, start, digits);
        return Ok(());
    }
    splice(next, text.as_slice(), start, end, digits)?;
    swap(text, next);
    Ok(())
}

/// Puts a space and digits in place of as many bytes of a text.
fn overwrite(text: &mut [u8], start: usize, digits: &[u8])
    requires { start + length digits.now < length text.old }
    ensures { text.new ≡ take start text.old ++ 32 ∷ (digits.now ++ drop (start + length digits.now + 1) text.old) }
{
    text[start] = b' ';
    text[start + 1..start + 1 + digits.len()].copy_from_slice(digits);
}

/// Puts a text together that has a space and other digits in place of some bytes.
fn splice(
    next: &mut Vec<u8>,
    text: &[u8],
    start: usize,
    end: usize,
    digits: &[u8],
) -> Result<(), AllocError>
    requires { (start ≤ end) × (end ≤ length text.now) }
    ensures { OnOk result (next.new.items ≡ take start text.now ++ 32 ∷ (digits.now ++ drop end text.now)) }
{
    next.clear();
    next.extend_from_slice(&text[..start])?;
    next.push(b' ')?;
    next.extend_from_slice(digits)?;
    next.extend_from_slice(&text[end..])
}

/// How many bytes are before an entry, by the widths of all.
fn before(widths: &[u8], p: usize) -> usize
    requires { (p ≤ length widths.now) × (length widths.now ≤ MAX_PROCESSES) }
    ensures value { result ≡ before widths.now p }
    ensures small { result ≤ 4080 }
{
    let mut start = 0;
    for &width in &widths[..p] {
        start += usize::from(width);
    }
    start
}
