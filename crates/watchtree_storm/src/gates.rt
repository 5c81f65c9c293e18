//! A gate that holds nobody up.

ghost use Rattle.std.specs.Prelude.{◌≡◌, true};

use event_sinks::Gate;

/// A gate that is always open, for 4,294,967,296 turns.
#[derive(Clone, Copy, Debug, Drop)]
pub struct OpenGate;

impl Gate for OpenGate {
    ghost may_pass = { λ _ _ _ answer. answer ≡ true };

    ghost most_turns = { λ _. 4294967296 };

    fn pass(&self, _who: u32, _turn: u64) -> bool {
        true
    }

    fn turns(&self) -> u64 {
        1 << 32
    }
}
