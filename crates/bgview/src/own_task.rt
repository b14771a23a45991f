//! A task of one's own that is in a file.
ghost use Rattle.std.specs.Prelude.{◌≡◌, IfOk};
ghost use Rattle.bgview.specs.OwnTasks.{ended_by_semicolon, judged_by, request_by, task_text};

use crate::request::{Explaining, Grading, OfInput, Paging, Request, Sampling, Searching};
use std::alloc::{AllocError, Global};

/// What is asked of an input, judged by the task of one's own that this text says.
pub fn judged_by<'a>(asked: OfInput<'a>, task: &'a [u8]) -> OfInput<'a>
    ensures { result ≡ judged_by task.entry asked.entry }
{
    match asked {
        OfInput::Whole(request) => OfInput::Whole(request_by(request, Some(task))),
        OfInput::Live => OfInput::Live,
    }
}

fn request_by<'a>(request: Request<'a>, keeps: Option<&'a [u8]>) -> Request<'a>
    ensures { result ≡ request_by keeps.entry request.entry }
{
    match request {
        Request::Why(explaining) => Request::Why(Explaining {
            keeps,
            ..explaining
        }),
        Request::Page(paging) => Request::Page(Paging { keeps, ..paging }),
        Request::Grade(grading) => Request::Grade(Grading { keeps, ..grading }),
        Request::Sample(sampling) => Request::Sample(Sampling { keeps, ..sampling }),
        Request::Outcomes(searching) => Request::Outcomes(Searching { keeps, ..searching }),
        Request::Open(searching) => Request::Open(Searching { keeps, ..searching }),
        other => other,
    }
}

/// The task that a file says, as a text: what ends its lines are the semicolons between them.
///
/// # Errors
///
/// An allocation that fails.
pub fn task_text(alloc: Global, file: &[u8]) -> Result<Vec<u8>, AllocError>
    ensures { IfOk result (λ text. text.items ≡ task_text file.now) }
{
    let mut text = Vec::with_capacity(alloc, file.len())?;
    for byte in file {
        text.push(ended_by_semicolon(*byte))?;
    }
    Ok(text)
}

fn ended_by_semicolon(byte: u8) -> u8
    ensures { result ≡ ended_by_semicolon byte }
{
    match byte {
        b'\n' => b';',
        other => other,
    }
}
