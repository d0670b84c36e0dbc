//! What a session is lent.
ghost use Rattle.std.specs.Prelude.{◌<◌, ◌≤◌};

/// What holds for a whole session: the moment in seconds since 1970, the most bytes that are taken and written, and the most
/// bytes of data in a frame, 1 to 32,767.
#[derive(Debug, Drop)]
pub struct Setting {
    pub moment: u64,
    pub limit: u64,
    pub block: u16,
    pub ghost some: { 0 < block },
    pub ghost fits: { block ≤ 32767 },
}
