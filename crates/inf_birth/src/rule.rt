//! How a message is made into an identifier.

ghost use Rattle.std.specs.Prelude.{◌≡◌, ◌≤◌};
ghost use Rattle.inf_base.specs.declared.limits.TheConstants.{MOST_DIGEST_BYTES};

use inf_base::Id;
use sha2::{Digest, Sha256};

/// A rule by which messages are made into identifiers. It is a value that holds no state: one message has one digest.
pub trait IdRule: Copy {
    ghost use Rattle.std.specs.Prelude.{ℕ, List};
    ghost use Rattle.inf_base.specs.declared.id.Id.{Id as AnyId};

    /// The digest of a message, fixed by the rule and its bytes.
    ghost digest_of: { Self → List ℕ → AnyId };

    fn digest(&self, bytes: &[u8]) -> Id
        ensures { result ≡ digest_of self.now bytes.now };
}

/// SHA-256 (FIPS 180-4) with its first `bytes` bytes kept, and the others set to 0.
#[derive(Clone, Copy, Debug, PartialEq, Eq)]
pub struct ShaRule {
    /// How many bytes are kept: fewer make clashes likely.
    pub bytes: u8,
    pub ghost at_least_one: { 1 ≤ bytes },
    pub ghost at_most_all: { bytes ≤ MOST_DIGEST_BYTES },
}

impl IdRule for ShaRule {
    ghost use Rattle.inf_birth.specs.Digest.{sha_id};

    ghost digest_of = { λ rule message. sha_id rule.bytes message };

    fn digest(&self, bytes: &[u8]) -> Id {
        let whole = Sha256::digest(bytes);
        let kept = self.bytes as usize;
        let mut id = [0u8; 32];
        id[..kept].copy_from_slice(&whole[..kept]);
        Id { bytes: id }
    }
}
