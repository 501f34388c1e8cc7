//! The course of calls, such as those of a script: all that a picture shows of them. It plays the script, and
//! keeps no space.
ghost use Rattle.std.specs.Prelude.{All, IfOk, map};
ghost use Rattle.offset_script.specs.Running.{as_plan};
ghost use Rattle.offset_pictures.specs.Course.{IsCourse};
ghost use Rattle.offset_pictures.specs.Lives.{IsOrdered, life_view};

use crate::living::{Life, lives_of_answers};
use crate::refusing::Refused;
use crate::watching::{Watched, watch};
use offset_allocator::StorageReport;
use offset_script::Script;
use std::alloc::{AllocError, Global};

/// What some calls did to a space: those of a script, by `course_of`, or other calls, as noted by the program
/// that makes them.
///
/// A picture shows as many calls as `sizes` has states, less one. All that it needs is that no life ends
/// before it begins: `first` is at most `last`.
///
/// Calls are counted from 0 here, and written from 1 in the picture. A state is what a number of calls
/// leaves: state 0 is the fresh space, and n calls have n + 1 states.
#[derive(Drop)]
pub struct Course {
    /// The node limit.
    pub max_allocs: u32,
    /// How many requests were granted.
    pub grants: usize,
    /// The lives of the grants, in the order of the calls.
    pub lives: Vec<Life>,
    /// The report of each state.
    pub reports: Vec<StorageReport>,
    /// The units of the space in each state.
    pub sizes: Vec<u32>,
    /// The calls that were refused, in their order.
    pub refused: Vec<Refused>,
}

/// Plays a script, without its full reports, and returns its course.
///
/// ```
/// let course = course_of(alloc, &script)?;
/// assert_eq!((course.grants, course.sizes.len()), (1, 3));
/// ```
pub fn course_of(alloc: Global, script: &Script) -> Result<Course, AllocError>
    // It is that of the script: its lives, reports, sizes and refusals are those of the plain machine.
    ensures course { IfOk result (IsCourse (as_plan script.now)) }
    // No life ends before it begins.
    ensures ordered { IfOk result (λ c. All IsOrdered (map life_view c.lives.items)) }
{
    let Watched {
        answers,
        reports,
        sizes,
        refused,
    } = watch(alloc, script)?;
    let lives = lives_of_answers(alloc, &script.commands, &answers)?;
    Ok(Course {
        max_allocs: script.max_allocs,
        grants: lives.len(),
        lives,
        reports,
        sizes,
        refused,
    })
}
