//! Laws of cartridges: each function has an empty body, and its contract is the law.

ghost use Rattle.std.specs.Prelude.{◌≡◌, ℕ, List};
ghost use Rattle.volume_store.specs.Committed.{Contents, Committed};

/// The bytes of a cartridge have one meaning: the same bytes have no other label, files, data
/// blocks or end. So what two calls find of the same bytes is the same.
#[tactic(auto, using(crate::proofs::OneContents::one_contents))]
pub fn one_contents()
    ensures { (bytes : List ℕ) (one other : Contents) → Committed bytes one → Committed bytes other
        → one ≡ other }
{}

/// Each cartridge has a meaning, whatever its bytes are.
#[tactic(auto, using(crate::proofs::EachCartridge::every_cartridge_is))]
pub fn every_cartridge_is()
    ensures { (bytes : List ℕ) → (contents : Contents) × Committed bytes contents }
{}
