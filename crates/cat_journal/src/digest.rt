//! The digest of a head and what stands behind it, which are digested where they stand.

ghost use Rattle.std.specs.Prelude.{◌≡◌, ◌↔◌, ◌++◌, IsTrue};
ghost use Rattle.sha2.specs.Sha256.{sha256};

use sha2::{Digest, Sha256};

/// The bytes of a digest.
pub(crate) const DIGEST_SIZE: usize = 32;

pub(crate) fn digest_of(head: &[u8], behind: &[u8]) -> [u8; DIGEST_SIZE]
    ensures { result ≡ sha256 (head.now ++ behind.now) }
{
    let mut hasher = Sha256::new();
    hasher.update(head);
    hasher.update(behind);
    hasher.finalize()
}

/// Whether that is the digest.
pub(crate) fn has_digest(head: &[u8], behind: &[u8], digest: &[u8; DIGEST_SIZE]) -> bool
    ensures { IsTrue result ↔ (sha256 (head.now ++ behind.now) ≡ digest.now) }
{
    same_digest(&digest_of(head, behind), digest)
}

pub(crate) fn same_digest(one: &[u8; DIGEST_SIZE], other: &[u8; DIGEST_SIZE]) -> bool
    ensures { IsTrue result ↔ (one.now ≡ other.now) }
{
    *one == *other
}
