// What a line of a listing reports.
use matching::Placing;

// At this frame, counted from 1 over the whole run, the signature of this name is seen with this placing.
#[derive(Clone, Copy)]
pub struct Report {
    pub frame: u32,
    pub name: u16,
    pub placing: Placing,
}
