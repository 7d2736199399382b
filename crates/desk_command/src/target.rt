//! Targets, taken apart.

ghost use Rattle.std.specs.Prelude.{◌≡◌, List, ℕ, None, MatchOption};
ghost use Rattle.matchit.specs.Params.{AllText, named, walk};
ghost use Rattle.matchit.specs.Seek.{first};
ghost use Rattle.desk_command.specs.Places.{all_rows};
ghost use Rattle.desk_command.specs.Targets.{IsAt, IsMadeOf, or_empty, parts_in};

use crate::place::{Place, Routes};
use matchit::Params;

/// Where a target leads, with the parts that stand for numbers and names.
#[derive(Clone, Copy)]
pub(crate) enum Target<'a> {
    Resources,
    Resource { kind: &'a str, name: &'a str },
    Slot { slot: &'a str },
    Label,
    Mount,
    Unmount,
    Inventory,
    Savegrp { group: &'a str },
    Sets,
    Set { ssid: &'a str },
    Body { ssid: &'a str, offset: &'a str },
    Finish { ssid: &'a str },
    Abort { ssid: &'a str },
    Amend { ssid: &'a str },
    Nsrim,
}

/// What a target is, where it leads to a place of the desk.
pub(crate) fn find_target<'a>(routes: &Routes, target: &'a str) -> Option<Target<'a>>
    ensures { MatchOption result (first all_rows target.now ≡ None)
        (λ found. IsMadeOf target.now (parts_in found)) }
{
    match routes.at(target) {
        Ok(found) => Some(target_at(*found.value, &found.params)),
        Err(_) => None,
    }
}

// The target of a place, by the parameters of its route.
fn target_at<'a>(place: Place, params: &Params<'_, 'a>) -> Target<'a>
    ensures { (parts : List (List ℕ)) → IsAt place parts params.now → parts_in result ≡ parts }
{
    match place {
        Place::Resources => Target::Resources,
        Place::Resource => Target::Resource {
            kind: part(params, "kind"),
            name: part(params, "name"),
        },
        Place::Slot => Target::Slot {
            slot: part(params, "slot"),
        },
        Place::Label => Target::Label,
        Place::Mount => Target::Mount,
        Place::Unmount => Target::Unmount,
        Place::Inventory => Target::Inventory,
        Place::Savegrp => Target::Savegrp {
            group: part(params, "group"),
        },
        Place::Sets => Target::Sets,
        Place::Set => Target::Set {
            ssid: part(params, "ssid"),
        },
        Place::Body => Target::Body {
            ssid: part(params, "ssid"),
            offset: part(params, "offset"),
        },
        Place::Finish => Target::Finish {
            ssid: part(params, "ssid"),
        },
        Place::Abort => Target::Abort {
            ssid: part(params, "ssid"),
        },
        Place::Amend => Target::Amend {
            ssid: part(params, "ssid"),
        },
        Place::Nsrim => Target::Nsrim,
    }
}

// A parameter by its name. It is empty where there is none of that name.
fn part<'a>(params: &Params<'_, 'a>, name: &str) -> &'a str
    ensures { AllText (walk params.now.pattern.now params.now.text.now params.now.path.now
        params.now.names.now 0 0) → result.now ≡ or_empty (named name.now
        (walk params.now.pattern.now params.now.text.now params.now.path.now
        params.now.names.now 0 0)) }
{
    match params.get(name) {
        Some(part) => part,
        None => "",
    }
}
