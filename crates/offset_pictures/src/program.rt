//! What a program that draws does: a picture, its status, and the line of its fault.
//! `offset_script::run_program_of` reads the script, and calls `send` of `PictureText`, which plays and draws
//! it. It touches the three streams alone.

ghost use Rattle.offset_pictures.specs.Picture.{IsPicture};
ghost use Rattle.offset_script.specs.Running.{Exits};

use crate::drawing::picture;
use offset_script::{Rendering, Script, Sink, Source, run_program_of, send};
use std::alloc::{AllocError, Global};

// The picture of a script, with this title.
#[derive(Drop)]
struct PictureText<'a> {
    title: &'a str,
}

impl<'a> Rendering for PictureText<'a> {
    ghost IsRendering = { λ it. IsPicture it.title.now };

    fn send<K: Sink>(
        &self,
        alloc: Global,
        script: &Script,
        output: &mut K,
    ) -> Result<bool, AllocError> {
        let text = picture(alloc, self.title, script)?;
        Ok(send(output, text.as_bytes()))
    }
}

/// Draws a script with a title, writes the picture, or the line of a fault to `errors`, and returns the
/// status to exit with.
///
/// The status is 0 exactly where a whole picture was written and flushed, 2 where the text is no script, 3
/// where an allocation failed, and 4 where the source or the sink failed. Nothing is written to `output`
/// unless the whole text is a script. With status 0, `errors` is as it was. A failure of `errors` changes no
/// status, and its line needs no memory.
///
/// ```
/// let mut input = FromRead::new(&b"space 1000 nodes 16 index 32\nalloc 300\n"[..]);
/// let mut output = IntoWrite::new(std::vec::Vec::new());
/// let mut errors = IntoWrite::new(std::vec::Vec::new());
/// assert_eq!(draw_program(alloc, "one call", &mut input, &mut output, &mut errors), 0);
/// assert!(output.into_inner().starts_with(b"<svg"));
/// ```
pub fn draw_program<S: Source, K: Sink, E: Sink>(
    alloc: Global,
    title: &str,
    input: &mut S,
    output: &mut K,
    errors: &mut E,
) -> u8
    // As `run_program`, with the picture in place of the text of the answers.
    ensures { Exits (IsPicture title.now) S.Source K.Sink E.Sink
        input.old input.new output.old output.new errors.old errors.new result }
{
    run_program_of(alloc, &PictureText { title }, input, output, errors)
}
