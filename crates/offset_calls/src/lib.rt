//! Lists of calls to an allocator, played on it: every call that changes a space, and the questions beside
//! them.
//!
//! `offset_script` plays the commands of a script. Here `shrink`, `grow_in_place`, `compact`, `compact_by`,
//! `compact_within`, `make_room`, `make_room_by`, `relocate`, `relocate_aligned`, `retract`, `allocate_at` and
//! the tight requests are calls too, and the questions where a range begins, where a request's grant would
//! begin, why a request would be refused, what room would cost, by whole steps too, and which live range is the
//! first, the last, or beside one. The replies are proved to be those of the plain stamped list of blocks, which
//! `specs/Calls.antt` extends by these calls, for every lawful layout and index type.
#![tactic(auto)]
// Each module uses those before it alone: calls, numbers, ticket_player, sliding, ending, playing, player, guarded_ending,
// guarded_playing, guarded.

mod calls;
mod ending;
mod guarded;
mod guarded_ending;
mod guarded_playing;
pub mod laws;
mod numbers;
mod player;
mod playing;
mod sliding;
mod ticket_player;

pub use calls::{Call, LiveRange, Moved, Reply, are_valid};
pub use guarded::{Played, TicketCall, play_guarded};
pub use player::{CallPlayer, CallPlayerOf};
pub use playing::{play_calls, play_calls_of};
