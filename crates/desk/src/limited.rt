//! A source of which no more than so many bytes are taken.

use room_base::{Failed, Source};

/// A source, and how many bytes may be taken of it.
#[derive(Drop)]
pub(crate) struct Limited<'a, S> {
    pub(crate) source: &'a mut S,
    pub(crate) allowed: u64,
}

impl<S: Source> Source for Limited<'_, S> {
    ghost use Rattle.std.specs.Prelude.{◌≡◌, refl};
    ghost use Rattle.std.proofs.Common.{◌∙◌};
    ghost use Rattle.desk.specs.Limits.{limited, TakesOfAllowed};
    ghost use Rattle.desk.specs.Taking.{takes_of_none, takes_of_then};

    ghost view = { λ it. limited (S.view it.source.now) it.allowed };

    ghost takes_alone = { λ old new. (new.source.ghost_name ≡ old.source.ghost_name)
        × TakesOfAllowed (S.view old.source.now) (S.view new.source.now) old.allowed new.allowed };

    ghost takes_none = { λ it. (refl, takes_of_none (S.view it.source.now) it.allowed) };

    ghost takes_then = { λ before between now first second. (
      second.0 ∙ first.0,
      takes_of_then (S.view before.source.now) (S.view between.source.now)
          (S.view now.source.now) before.allowed between.allowed now.allowed first.1 second.1,
    ) };

    fn take(&mut self, into: &mut [u8]) -> Result<u64, Failed> {
        if self.allowed == 0 {
            return Ok(0);
        }
        let most = self.allowed.min(into.len() as u64) as usize;
        let (space, _) = into.split_at_mut(most);
        let count = self.source.take(space)?;
        self.allowed -= count;
        Ok(count)
    }
}
