use room_base::{Items, Ssid, Volid};

/// What is known here of an open session: its set, the base of that, and the volumes that it has
/// sections on so far.
#[derive(Drop)]
pub struct OpenSet {
    pub ssid: Ssid,
    pub base: Ssid,
    pub volids: Items<Volid>,
}
