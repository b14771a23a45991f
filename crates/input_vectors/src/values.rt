//! The values of which inputs are made, read from their text.
ghost use Rattle.std.specs.Prelude.{◌≡◌, ◌<◌, ◌∷◌, ◌++◌, [], IfOk, length};
ghost use Rattle.protocol_lang.specs.Numbers.{greatest};
ghost use Rattle.protocol_lang.specs.Results.{Gives};
ghost use Rattle.script_play.specs.Script.{number_within};
ghost use Rattle.input_vectors.specs.Values.{one_more, values_in};

use arrayvec::ArrayVec;
use protocol_lang::read_number;
use room_spec::cut;

/// The most values of which inputs are made.
pub const MAX_VALUES: usize = 16;

/// Values of which inputs are made, in the order in which they are taken.
pub type Values = ArrayVec<u32, MAX_VALUES>;

/// Why a text says no values.
#[derive(Clone, Copy, Debug, PartialEq, Eq)]
pub enum ValuesFault {
    /// The value of this number, counted from 1, is no number of 0 to 4294967295.
    NoNumber(usize),
    /// The value of this number, counted from 1, is there before.
    Repeated(usize),
    /// There are more than 16.
    TooMany,
}

/// The values that a text says, as in `0,1,5`: 1 to 16 numbers of 0 to 4294967295 with a comma between each two, and no two the same.
///
/// # Errors
///
/// The first fault of the text.
pub fn read_values(text: &[u8]) -> Result<Values, ValuesFault>
    ensures { Gives (λ values. values.items) result (values_in text.now) }
{
    let mut values = Values::new();
    let mut rest = Some(text);
    while let Some(pieces) = rest {
        let (piece, later) = cut(pieces, b',');
        let value = read_value(values.as_slice(), piece)?;
        values.push(value);
        rest = later;
    }
    Ok(values)
}

/// The value that a piece says after these, which don't have it, and are not too many.
fn read_value(before: &[u32], piece: &[u8]) -> Result<u32, ValuesFault>
    ensures read { Gives (λ value. before.now ++ value ∷ []) result (one_more before.now (number_within 0 greatest piece.now)) }
    ensures room { IfOk result (λ _. length before.now < MAX_VALUES) }
{
    let Some(value) = read_number_within(piece) else {
        return Err(ValuesFault::NoNumber(before.len() + 1));
    };
    if before.contains(&value) {
        return Err(ValuesFault::Repeated(before.len() + 1));
    }
    if before.len() >= MAX_VALUES {
        return Err(ValuesFault::TooMany);
    }
    Ok(value)
}

/// The number of 0 to 4294967295 that a piece is.
fn read_number_within(piece: &[u8]) -> Option<u32>
    ensures { result ≡ number_within 0 greatest piece.now }
{
    u32::try_from(read_number(piece)?).ok()
}
