//! What a script says.

use inf_base::Setup;
use inf_order::Moves;

/// The greatest number of bytes of a script.
pub const MOST_SCRIPT_BYTES: usize = 67_108_864;

/// The greatest number of bytes of a line before its newline.
pub const MOST_LINE_BYTES: usize = 32_768;

/// What a script says.
#[derive(Debug, PartialEq, Drop)]
pub struct Script {
    pub setup: Setup,
    /// The moves of the order lines, or the one move `*` where there are none.
    pub order: Moves,
}
