//! Scripts as texts: played, and drawn.

ghost use Rattle.std.specs.Prelude.{◌≤◌};

use crate::random::{Digest, Random};
use offset_pictures::draw_program;
use offset_script::{FromRead, IntoWrite, run_program};
use std::alloc::{AllocError, Global};

// How many digits a number has.
fn width_of(number: u32) -> usize
    ensures { result ≤ 10 }
{
    match number {
        0..=9 => 1,
        10..=99 => 2,
        100..=999 => 3,
        1_000..=9_999 => 4,
        10_000..=99_999 => 5,
        100_000..=999_999 => 6,
        1_000_000..=9_999_999 => 7,
        10_000_000..=99_999_999 => 8,
        100_000_000..=999_999_999 => 9,
        _ => 10,
    }
}

// Appends a word, a number and a line end.
fn put_line(text: &mut Vec<u8>, word: &[u8], number: u32) -> Result<(), AllocError> {
    let mut digits = [b'\n'; 11];
    let width = width_of(number);
    let mut rest = number;
    for i in 0..width {
        digits[width - 1 - i] = b'0' + (rest % 10) as u8;
        rest /= 10;
    }
    text.extend_from_slice(word)?;
    text.extend_from_slice(&digits[..width + 1])
}

// What the commands of a script are: how many, how many live ranges at most, and one in how many is `full`.
#[derive(Clone, Copy)]
struct Kind {
    lines: u32,
    live: u32,
    full: u32,
}

// Commands as a recording has them: requests of many small and few large ranges, and their releases, after
// short lives and long ones, and a few questions.
fn commands(alloc: Global, kind: Kind, random: &mut Random) -> Result<Vec<u8>, AllocError> {
    let mut text = Vec::new(alloc);
    let mut kept: Vec<u32> = Vec::new(alloc);
    let mut grants = 0u32;
    for _ in 0..kind.lines {
        let draw = random.draw();
        let place = draw.place(kept.len().min(1_000_000) as u32) as usize;
        if kind.full > 0 && draw.part(1) == 0 && draw.below(kind.full) == 0 {
            text.extend_from_slice(b"full\n")?;
        } else if draw.part(2) == 0 && draw.part(3) < 2 {
            text.extend_from_slice(b"report\n")?;
        } else if draw.part(2) == 1 && draw.part(3) < 2 {
            put_line(&mut text, b"size ", kept.get(place).copied().unwrap_or(1))?;
        } else if place < kept.len() && (kept.len() >= kind.live as usize || draw.part(4) < 5) {
            put_line(&mut text, b"free ", kept.swap_remove(place))?;
        } else {
            grants = grants.saturating_add(1);
            kept.push(grants)?;
            put_line(&mut text, b"alloc ", random.size(14))?;
        }
    }
    Ok(text)
}

// The spaces in which commands are played: ample ones, one in which requests are refused for units, and one
// for nodes.
const HEADERS: [&[u8]; 4] = [
    b"# in ample space\n\nspace 1000000000 nodes 131072 index 32\n",
    b"# in less space\n\nspace 60000000 nodes 65533 index 16\n",
    b"# in too little space\n\nspace 4000000 nodes 131072 index 32\n",
    b"# with too few nodes\n\nspace 1000000000 nodes 1200 index 16\n",
];

// A script.
fn script(alloc: Global, header: &[u8], commands: &[u8]) -> Result<Vec<u8>, AllocError> {
    let mut text = Vec::with_capacity(alloc, header.len().saturating_add(commands.len()))?;
    text.extend_from_slice(header)?;
    text.extend_from_slice(commands)?;
    Ok(text)
}

// Plays a script, and adds what it writes and its status.
fn play(alloc: Global, text: &[u8], digest: &mut Digest) {
    let mut input = FromRead::new(text);
    let mut output = IntoWrite::new(Vec::new(alloc));
    let mut errors = IntoWrite::new(Vec::new(alloc));
    let status = run_program(alloc, &mut input, &mut output, &mut errors);
    digest.add(u64::from(status));
    digest.add_text(&output.into_inner());
    digest.add_text(&errors.into_inner());
}

/// Plays scripts of at most `lines` commands, each in four spaces: a long one, three of the size of a
/// recorded program, and one with many full reports. Then it plays a long one whose last line is no command.
pub fn scripts(
    alloc: Global,
    lines: u32,
    random: &mut Random,
    digest: &mut Digest,
) -> Result<(), AllocError> {
    let long = Kind {
        lines,
        live: 20_000,
        full: 0,
    };
    let recorded = Kind {
        lines: lines / 8,
        live: 1_500,
        full: 0,
    };
    let reporting = Kind {
        lines: lines / 3,
        live: 2_000,
        full: 5,
    };
    for kind in [long, recorded, recorded, recorded, reporting] {
        let commands = commands(alloc, kind, random)?;
        for header in HEADERS {
            play(alloc, &script(alloc, header, &commands)?, digest);
        }
    }
    let mut faulty = commands(alloc, long, random)?;
    faulty.extend_from_slice(b"alloc 12x\n")?;
    play(alloc, &script(alloc, HEADERS[0], &faulty)?, digest);
    Ok(())
}

/// Plays a script of at most `lines` commands, with many full reports among them.
pub fn reporting(
    alloc: Global,
    lines: u32,
    random: &mut Random,
    digest: &mut Digest,
) -> Result<(), AllocError> {
    let kind = Kind {
        lines,
        live: 2_000,
        full: 5,
    };
    let commands = commands(alloc, kind, random)?;
    play(alloc, &script(alloc, HEADERS[0], &commands)?, digest);
    Ok(())
}

// Draws a script, and adds what it writes and its status.
fn draw(alloc: Global, text: &[u8], digest: &mut Digest) {
    let mut input = FromRead::new(text);
    let mut output = IntoWrite::new(Vec::new(alloc));
    let mut errors = IntoWrite::new(Vec::new(alloc));
    let status = draw_program(
        alloc,
        "A measurement & its script",
        &mut input,
        &mut output,
        &mut errors,
    );
    digest.add(u64::from(status));
    digest.add_text(&output.into_inner());
    digest.add_text(&errors.into_inner());
}

/// Draws scripts of at most `lines` commands, each in four spaces: a long one, and three of the size of a
/// recorded program, whose ranges have titles.
pub fn pictures(
    alloc: Global,
    lines: u32,
    random: &mut Random,
    digest: &mut Digest,
) -> Result<(), AllocError> {
    let long = Kind {
        lines,
        live: 20_000,
        full: 5,
    };
    let recorded = Kind {
        lines: lines / 8,
        live: 1_500,
        full: 0,
    };
    for kind in [long, recorded, recorded, recorded] {
        let commands = commands(alloc, kind, random)?;
        for header in HEADERS {
            draw(alloc, &script(alloc, header, &commands)?, digest);
        }
    }
    Ok(())
}
