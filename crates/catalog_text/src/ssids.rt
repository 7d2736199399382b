//! Lists of save sets and of resources, as changes have them.

ghost use Rattle.std.specs.Prelude.{◌≡◌, ◌<◌, ◌^◌, List, ℕ};
ghost use Rattle.catalog_change.specs.Resources.{IsResource};
ghost use Rattle.catalog_spelling.specs.Reading.{Gives};
ghost use Rattle.catalog_spelling.specs.Changes.{is_next_ssid, ssid_at, ssid_text};
ghost use Rattle.catalog_text.specs.Writing.{HasRoom, Appends};

use crate::field::{allow, read_u64};
use crate::put::put_u64;
use crate::{FieldFault, Format};
use room_base::Ssid;
use std::alloc::Global;

/// Numbers of save sets that ascend.
pub struct Ssids;

impl Format for Ssids {
    type Item = Ssid;

    const LEAST: usize = 8;

    ghost at = { ssid_at };

    ghost text = { ssid_text };

    ghost Is = { λ ssid. Unit {0} };

    ghost LEAST = { 8 };

    ghost Fits = { λ ssid. ssid.0 < 2 ^ 64 };

    fn read<'a>(
        _alloc: Global,
        before: &[Ssid],
        bytes: &'a [u8],
    ) -> Result<(Ssid, &'a [u8]), FieldFault> {
        ssid_of(before, bytes)
    }

    fn put(ssid: &Ssid, into: &mut Vec<u8>) {
        put_u64(into, ssid.0)
    }

    #[tactic(auto, using(crate::proofs::Lengths::u64_length))]
    fn length(_ssid: &Ssid) -> u64 {
        8
    }
}

#[tactic(auto, unfolding(catalog_spelling::specs::Changes::ssid_at))]
fn ssid_of<'a>(before: &[Ssid], bytes: &'a [u8]) -> Result<(Ssid, &'a [u8]), FieldFault>
    ensures { Gives (λ x. (x.0, x.1.now)) result (ssid_at before.now bytes.now) }
{
    let (ssid, rest) = read_u64(bytes)?;
    allow(is_next_ssid(before, ssid), bytes)?;
    Ok((Ssid(ssid), rest))
}

fn is_next_ssid(before: &[Ssid], number: u64) -> bool
    ensures { result ≡ is_next_ssid before.now number }
{
    match before.last() {
        Some(last) => last.0 < number,
        None => true,
    }
}
