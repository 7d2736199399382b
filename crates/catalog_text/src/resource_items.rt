//! The items of the lists that resources have.

ghost use Rattle.std.specs.Prelude.{◌≡◌, ◌≤◌, List, ℕ};
ghost use Rattle.catalog_change.specs.Resources.{IsMember};
ghost use Rattle.catalog_spelling.specs.Reading.{Gives};
ghost use Rattle.catalog_spelling.specs.Fields.{byte_text};
ghost use Rattle.catalog_spelling.specs.Resources.{level_at, action_at, is_next_day, override_at};
ghost use Rattle.catalog_spelling.specs.Resources.{override_text, member_at, member_text};
ghost use Rattle.catalog_text.specs.Writing.{HasRoom, Appends};

use crate::field::{allow, known, read_u8, read_u32};
use crate::names::text_length;
use crate::put::{put_text, put_u8, put_u32};
use crate::text::read_name;
use crate::{FieldFault, Format};
use room_rules::{Action, Member, Override};
use save_stream::Level;
use std::alloc::Global;

/// The greatest day that an override may name: 31 December 9998.
const MAX_DAY: u32 = 2_932_531;

/// Levels, by their ranks.
pub struct Levels;

impl Format for Levels {
    type Item = Level;

    const LEAST: usize = 1;

    ghost at = { λ before. level_at };

    ghost text = { byte_text };

    ghost Is = { λ level. Unit {0} };

    ghost LEAST = { 1 };

    ghost Fits = { λ level. level ≤ 10 };

    fn read<'a>(
        _alloc: Global,
        _before: &[Level],
        bytes: &'a [u8],
    ) -> Result<(Level, &'a [u8]), FieldFault> {
        read_level(bytes)
    }

    fn put(level: &Level, into: &mut Vec<u8>) {
        put_u8(into, level.rank())
    }

    fn length(_level: &Level) -> u64 {
        1
    }
}

/// A rank from 0 to 10.
#[tactic(auto, unfolding(catalog_spelling::specs::Fields::byte_within_at))]
pub fn read_level(bytes: &[u8]) -> Result<(Level, &[u8]), FieldFault>
    ensures { Gives (λ x. (x.0, x.1.now)) result (level_at bytes.now) }
{
    let (rank, rest) = read_u8(bytes)?;
    let level = known(Level::of(rank), bytes)?;
    Ok((level, rest))
}

/// Actions, by their bytes.
pub struct Actions;

impl Format for Actions {
    type Item = Action;

    const LEAST: usize = 1;

    ghost at = { λ before. action_at };

    ghost text = { byte_text };

    ghost Is = { λ action. Unit {0} };

    ghost LEAST = { 1 };

    ghost Fits = { λ action. action ≤ 11 };

    fn read<'a>(
        _alloc: Global,
        _before: &[Action],
        bytes: &'a [u8],
    ) -> Result<(Action, &'a [u8]), FieldFault> {
        read_action(bytes)
    }

    fn put(action: &Action, into: &mut Vec<u8>) {
        put_u8(into, action.byte())
    }

    fn length(_action: &Action) -> u64 {
        1
    }
}

#[tactic(auto, unfolding(catalog_spelling::specs::Fields::byte_within_at))]
fn read_action(bytes: &[u8]) -> Result<(Action, &[u8]), FieldFault>
    ensures { Gives (λ x. (x.0, x.1.now)) result (action_at bytes.now) }
{
    let (byte, rest) = read_u8(bytes)?;
    let action = known(Action::of(byte), bytes)?;
    Ok((action, rest))
}

/// Overrides of a schedule, with ascending days.
pub struct Overrides;

impl Format for Overrides {
    type Item = Override;

    const LEAST: usize = 5;

    ghost at = { override_at };

    ghost text = { override_text };

    ghost Is = { λ one. Unit {0} };

    ghost LEAST = { 5 };

    ghost Fits = { λ one. one.action ≤ 11 };

    fn read<'a>(
        _alloc: Global,
        before: &[Override],
        bytes: &'a [u8],
    ) -> Result<(Override, &'a [u8]), FieldFault> {
        override_of(before, bytes)
    }

    fn put(one: &Override, into: &mut Vec<u8>) {
        put_u32(into, one.day);
        put_u8(into, one.action.byte());
    }

    #[tactic(auto, using(crate::proofs::Lengths::length_override))]
    fn length(_one: &Override) -> u64 {
        5
    }
}

#[tactic(auto, unfolding(catalog_spelling::specs::Resources::override_at, catalog_spelling::specs::Fields::byte_within_at))]
fn override_of<'a>(before: &[Override], bytes: &'a [u8]) -> Result<(Override, &'a [u8]), FieldFault>
    ensures { Gives (λ x. (x.0, x.1.now)) result (override_at before.now bytes.now) }
{
    let (day, rest) = read_u32(bytes)?;
    allow(is_next_day(before, day), bytes)?;
    let (byte, after) = read_u8(rest)?;
    let action = known(Action::of(byte), rest)?;
    Ok((Override { day, action }, after))
}

fn is_next_day(before: &[Override], day: u32) -> bool
    ensures { result ≡ is_next_day before.now day }
{
    let above = match before.last() {
        Some(last) => last.day < day,
        None => true,
    };
    day <= MAX_DAY && above
}

/// Members of a group.
pub struct Members;

impl Format for Members {
    type Item = Member;

    const LEAST: usize = 4;

    ghost at = { λ before. member_at };

    ghost text = { member_text };

    ghost Is = { IsMember };

    ghost LEAST = { 4 };

    fn read<'a>(
        alloc: Global,
        _before: &[Member],
        bytes: &'a [u8],
    ) -> Result<(Member, &'a [u8]), FieldFault> {
        member_of(alloc, bytes)
    }

    fn put(member: &Member, into: &mut Vec<u8>) {
        put_text(into, &member.client);
        put_text(into, &member.set);
    }

    fn length(member: &Member) -> u64 {
        text_length(&member.client) + text_length(&member.set)
    }
}

#[tactic(auto, unfolding(catalog_spelling::specs::Resources::member_at))]
fn member_of(alloc: Global, bytes: &[u8]) -> Result<(Member, &[u8]), FieldFault>
    ensures { Gives (λ x. (x.0, x.1.now)) result (member_at bytes.now) }
{
    let (client, rest) = read_name(alloc, 64, bytes)?;
    let (set, rest) = read_name(alloc, 255, rest)?;
    Ok((Member { client, set }, rest))
}
