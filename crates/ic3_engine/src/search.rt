//! The state of a search.

use ic3_frames::Frames;
use ic3_oblig::Queue;
use ic3_query::{Known, Room};

/// A solver that serves the levels, what is known for good, the cubes that wait, and the room in which questions are asked.
#[derive(Drop)]
pub struct Search<S: Drop> {
    pub solver: S,
    pub frames: Frames,
    pub known: Known,
    pub queue: Queue,
    pub room: Room,
}
