//! The crash lines of a room block.
ghost use Rattle.std.specs.Prelude.{◌≡◌, ◌^◌, ◌≤◌, min, length, IfOk, None, Ok, Err, if◌then◌else◌};
ghost use Rattle.std.specs.Option.{option_map};
ghost use Rattle.room_spec.specs.Rooms.{AreFuses};
ghost use Rattle.room_spec.specs.Texts.{fields_of};
ghost use Rattle.room_spec.specs.declared.fault.SpecFault.TheVariants.{BadLine};
ghost use Rattle.protocol_lang.specs.Results.{Gives};
ghost use Rattle.room_spec.specs.Blocks.{fuse_in, of_simulator, said_next, is_protocol, has_fuse, fuse_lines};

use crate::fault::SpecFault;
use crate::spec::MAX_SIMULATORS;
use crate::text::{cut_near, split_line};
use arrayvec::ArrayVec;
use protocol_lang::read_number;

/// Reads the crash lines, of which the first has this number, and the line `protocol`.
pub(crate) fn read_fuses(
    text: &[u8],
    first: usize,
    simulators: u16,
) -> Result<(ArrayVec<(u8, u32), MAX_SIMULATORS>, &[u8]), SpecFault>
    requires first { first ≤ 8 }
    requires simulators { simulators ≤ MAX_SIMULATORS }
    ensures value { Gives (λ read. (read.0.items, read.1.now)) result (fuse_lines first simulators text.now) }
    ensures fuses { IfOk result (λ read. AreFuses read.0.items simulators) }
{
    let mut fuses = ArrayVec::new();
    let mut rest = text;
    loop {
        let (line, later) = split_line(rest);
        match read_fuse(line, first, simulators, fuses.as_slice())? {
            Some(fuse) => fuses.push(fuse),
            None => return Ok((fuses, later)),
        }
        rest = later;
    }
}

/// Reads the line after the crash lines of these fuses, of which the first has this number: one more,
/// or `None` if it is `protocol`.
fn read_fuse(
    line: &[u8],
    first: usize,
    simulators: u16,
    fuses: &[(u8, u32)],
) -> Result<Option<(u8, u32)>, SpecFault>
    requires first { first ≤ 8 }
    requires simulators { simulators ≤ MAX_SIMULATORS }
    requires fuses { length fuses.now ≤ MAX_SIMULATORS }
    ensures { result ≡ said_next first simulators fuses.now line.now }
{
    let number = first + fuses.len();
    let [b'c', b'r', b'a', b's', b'h', b' ', words @ ..] = line else {
        return read_protocol_line(line, number);
    };
    let fuse = read_fuse_of_simulator(words, number, simulators)?;
    if has_fuse(fuses, fuse.0) {
        return Err(SpecFault::Repeated(number));
    }
    Ok(Some(fuse))
}

fn read_protocol_line(line: &[u8], number: usize) -> Result<Option<(u8, u32)>, SpecFault>
    ensures { result ≡ (if is_protocol line.now then Ok None else Err (BadLine number)) }
{
    if line == b"protocol".as_slice() {
        Ok(None)
    } else {
        Err(SpecFault::BadLine(number))
    }
}

fn has_fuse(fuses: &[(u8, u32)], simulator: u8) -> bool
    ensures { result ≡ has_fuse fuses.now simulator }
{
    fuses.iter().any(|fuse| fuse.0 == simulator)
}

fn read_fuse_of_simulator(
    words: &[u8],
    number: usize,
    simulators: u16,
) -> Result<(u8, u32), SpecFault>
    requires { simulators ≤ MAX_SIMULATORS }
    ensures { result ≡ of_simulator number simulators (fuse_in (fields_of words.now)) }
{
    let (simulator, steps) = fuse_from(words).ok_or(SpecFault::CrashLine(number))?;
    match u32::try_from(steps) {
        Ok(steps) if simulator < u64::from(simulators) => Ok((simulator as u8, steps)),
        _ => Err(SpecFault::CrashLine(number)),
    }
}

/// The numbers in the words after `crash`, as they are read.
fn fuse_from(words: &[u8]) -> Option<(u64, u64)>
    ensures { result ≡ option_map (λ fuse. (min fuse.0 (2 ^ 32), min fuse.1 (2 ^ 32))) (fuse_in (fields_of words.now)) }
{
    let (simulator, rest) = cut_near(words, b' ');
    let (word, rest) = cut_near(rest?, b' ');
    let (steps, rest) = cut_near(rest?, b' ');
    if rest.is_some() {
        return None;
    }
    let [b'a', b'f', b't', b'e', b'r'] = word else {
        return None;
    };
    let simulator = read_number(simulator)?;
    let steps = read_number(steps)?;
    Some((simulator, steps))
}
