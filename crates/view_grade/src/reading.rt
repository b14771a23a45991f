//! Goals, read from their texts.
ghost use Rattle.std.specs.Prelude.{◌≡◌, ◌<◌, ◌≤◌, ℕ, List, false, codes, IfOk, IfSome, option_map, length, unwrap_or, []};
ghost use Rattle.std.specs.Option.{option_copied};
ghost use Rattle.std.specs.Str.{bytes_eq};
ghost use Rattle.room_spec.specs.Texts.{fields_of, is_space, pieces_of};
ghost use Rattle.script_play.specs.Script.{number_within};
ghost use Rattle.view_grade.specs.Goals.{claim_in, claim_with, decided_fact, fact_in, fact_of, goal_in, input_fact, input_in, joint_of, simulator_fact};

use crate::goal::{Claim, Fact, Goal, GoalFault, Joint};
use protocol_lang::read_number;
use room_spec::cut;
use std::alloc::{AllocError, Global};

/// The goal that a text says, as in `held 0 and not decided 1 3 or crashed 0`, or the first fault of the text.
///
/// # Errors
///
/// An allocation that fails.
pub fn read_goal(alloc: Global, text: &[u8]) -> Result<Result<Goal, GoalFault>, AllocError>
    ensures { IfOk result (λ read. read ≡ goal_in text.now) }
{
    let mut claims = Vec::new(alloc);
    let mut joint = Joint::Or;
    let mut rest = text;
    while let Some((claim, later)) = read_claim(joint, rest) {
        claims.push(claim)?;
        let Some(later) = later else {
            return Ok(Ok(Goal { claims }));
        };
        let (word, next) = cut(later, b' ');
        let Some(next_joint) = joint_of(word) else {
            return Ok(Err(GoalFault::NoJoint(claims.as_slice().len())));
        };
        joint = next_joint;
        rest = text_in(next);
    }
    Ok(Err(GoalFault::NoClaim(claims.as_slice().len() + 1)))
}

/// The text after a joint. Without one it is empty, and an empty text says no claim.
fn text_in(rest: Option<&[u8]>) -> &[u8]
    ensures { result.now ≡ unwrap_or (option_copied rest.entry) [] }
{
    match rest {
        Some(text) => text,
        None => &[],
    }
}

/// The claim with which a text begins, and the text after the next space, if there is one.
fn read_claim(joint: Joint, text: &[u8]) -> Option<(Claim, Option<&[u8]>)>
    ensures claim { option_map (λ read. (read.0, pieces_of is_space (option_copied read.1))) result ≡ claim_in joint (fields_of text.now) }
    ensures shorter { IfSome result (λ read. IfSome read.1 (λ later. length later.now < length text.now)) }
{
    let (word, rest) = cut(text, b' ');
    if word == b"not".as_slice() {
        claim_with(joint, true, rest?)
    } else {
        claim_with(joint, false, text)
    }
}

/// The claim about the fact with which a text begins, and the text after the next space, if there is one.
fn claim_with(joint: Joint, negated: bool, text: &[u8]) -> Option<(Claim, Option<&[u8]>)>
    ensures claim { option_map (λ read. (read.0, pieces_of is_space (option_copied read.1))) result ≡ claim_with joint negated (fact_in (fields_of text.now)) }
    ensures shorter { IfSome result (λ read. IfSome read.1 (λ later. length later.now < length text.now)) }
{
    let (fact, later) = read_fact(text)?;
    let claim = Claim {
        joint,
        negated,
        fact,
    };
    Some((claim, later))
}

/// The fact with which a text begins, and the text after the next space, if there is one.
fn read_fact(text: &[u8]) -> Option<(Fact, Option<&[u8]>)>
    ensures fact { option_map (λ read. (read.0, pieces_of is_space (option_copied read.1))) result ≡ fact_in (fields_of text.now) }
    ensures shorter { IfSome result (λ read. IfSome read.1 (λ later. length later.now < length text.now)) }
{
    let (word, rest) = cut(text, b' ');
    let (number, later) = cut(rest?, b' ');
    if word == b"decided".as_slice() {
        return decided_fact(number, later?);
    }
    if word == b"simulator".as_slice() {
        return simulator_fact(number, later?);
    }
    if word == b"input".as_slice() {
        return input_fact(number, later?);
    }
    let fact = fact_of(word, number)?;
    Some((fact, later))
}

/// The fact that the process of this number has decided the value with which a text begins, and the text after the next space.
fn decided_fact<'a>(process: &[u8], text: &'a [u8]) -> Option<(Fact, Option<&'a [u8]>)>
    ensures fact { option_map (λ read. (read.0, pieces_of is_space (option_copied read.1))) result ≡ decided_fact (number_within 0 255 process.now) (fields_of text.now) }
    ensures shorter { IfSome result (λ read. IfSome read.1 (λ rest. length rest.now < length text.now)) }
{
    let (value, rest) = cut(text, b' ');
    let process = read_within(255, process)? as u8;
    let value = read_within(u32::MAX, value)?;
    Some((Fact::Decided { process, value }, rest))
}

/// The fact that the simulator of this number has decided the value with which a text begins after the word `decided`, and the text after the next space.
fn simulator_fact<'a>(simulator: &[u8], text: &'a [u8]) -> Option<(Fact, Option<&'a [u8]>)>
    ensures fact { option_map (λ read. (read.0, pieces_of is_space (option_copied read.1))) result ≡ simulator_fact (number_within 0 255 simulator.now) (fields_of text.now) }
    ensures shorter { IfSome result (λ read. IfSome read.1 (λ rest. length rest.now < length text.now)) }
{
    let (word, rest) = cut(text, b' ');
    if word != b"decided".as_slice() {
        return None;
    }
    let (value, later) = cut(rest?, b' ');
    let simulator = read_within(255, simulator)? as u8;
    let value = read_within(u32::MAX, value)?;
    Some((Fact::SimulatorDecided { simulator, value }, later))
}

/// The fact that the process of this number has the input with which a text begins, and the text after the next space.
fn input_fact<'a>(process: &[u8], text: &'a [u8]) -> Option<(Fact, Option<&'a [u8]>)>
    ensures fact { option_map (λ read. (read.0, pieces_of is_space (option_copied read.1))) result ≡ input_fact (number_within 0 255 process.now) (fields_of text.now) }
    ensures shorter { IfSome result (λ read. IfSome read.1 (λ rest. length rest.now < length text.now)) }
{
    let (word, rest) = cut(text, b' ');
    let process = read_within(255, process)? as u8;
    let input = input_in(word)?;
    Some((Fact::Input { process, input }, rest))
}

/// The input that a word says: a value, or `none`.
fn input_in(word: &[u8]) -> Option<Option<u32>>
    ensures { result ≡ input_in word.now }
{
    if word == b"none".as_slice() {
        return Some(None);
    }
    let value = read_within(u32::MAX, word)?;
    Some(Some(value))
}

/// The fact of this word about one number.
fn fact_of(word: &[u8], number: &[u8]) -> Option<Fact>
    ensures { (rest : List (List ℕ)) → bytes_eq word.now (codes "decided") ≡ false → bytes_eq word.now (codes "simulator") ≡ false → bytes_eq word.now (codes "input") ≡ false → option_map (λ fact. (fact, rest)) result ≡ fact_of word.now number.now rest }
{
    if word == b"spent".as_slice() {
        Some(Fact::Spent(read_within(255, number)? as u8))
    } else if word == b"held".as_slice() {
        Some(Fact::Held(read_within(255, number)? as u8))
    } else if word == b"going".as_slice() {
        Some(Fact::Going(read_within(255, number)? as u8))
    } else if word == b"crashed".as_slice() {
        Some(Fact::Crashed(read_within(255, number)? as u8))
    } else if word == b"history".as_slice() {
        Some(Fact::History(read_within(u32::MAX, number)?))
    } else {
        None
    }
}

/// The number that a field is, up to `most`.
fn read_within(most: u32, field: &[u8]) -> Option<u32>
    ensures value { result ≡ number_within 0 most field.now }
    ensures range { IfSome result (λ number. number ≤ most) }
{
    let number = u32::try_from(read_number(field)?).ok()?;
    if number <= most { Some(number) } else { None }
}

/// The joint of this word.
fn joint_of(word: &[u8]) -> Option<Joint>
    ensures { result ≡ joint_of word.now }
{
    if word == b"and".as_slice() {
        Some(Joint::And)
    } else if word == b"or".as_slice() {
        Some(Joint::Or)
    } else {
        None
    }
}
