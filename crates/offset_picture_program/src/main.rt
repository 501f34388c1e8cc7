//! Draws the script on standard input, with the first argument as the title. The picture goes to standard
//! output, and the line of a fault to standard error.
//!
//! The status is that of `draw_program`: 0, 2, 3 or 4. It is 3, with the line of that fault, also where
//! memory for the title is refused. In a title that is not UTF-8 each part that is no character is drawn as
//! U+FFFD.
#![tactic(auto)]

use offset_pictures::draw_program;
use offset_script::{FromRead, IntoWrite, RunFault, send_fault};
use std::alloc::{AllocError, Global};
use std::env::{Env, FillError};
use std::process::ExitCode;

// The title where there is no argument.
const TITLE: &str = "Ranges of a space, and its free units, over calls";

// The first argument as text, if there is one. `std::env::args` fails where an argument is not UTF-8.
fn first_argument<E: Env>(env: &E, alloc: Global) -> Result<Option<String>, AllocError> {
    let mut room = 256usize;
    for _ in 0..usize::BITS {
        let mut bytes = vec![in alloc; 0u8; room]?;
        match env.arg(1, &mut bytes) {
            Ok(len) => return Ok(Some(String::from_utf8_lossy(alloc, &bytes[..len])?)),
            Err(FillError::TooLong) => room = room.saturating_mul(2),
            Err(FillError::NotPresent) => return Ok(None),
        }
    }
    Err(AllocError)
}

fn main(rt: HostRuntime) -> ExitCode {
    let mut input = FromRead::new(rt.stdin());
    let mut output = IntoWrite::new(rt.stdout());
    let mut errors = IntoWrite::new(rt.stderr());
    let status = match first_argument(&rt, rt.alloc()) {
        Ok(title) => draw_program(
            rt.alloc(),
            title.as_deref().unwrap_or(TITLE),
            &mut input,
            &mut output,
            &mut errors,
        ),
        Err(_) => {
            let _is_sent = send_fault(&mut errors, RunFault::Memory);
            RunFault::Memory.status()
        }
    };
    ExitCode::from(status)
}
