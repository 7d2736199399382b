//! The table of routes: which method and which target ask for which command.

ghost use Rattle.std.specs.Prelude.{◌≡◌, ◌≢◌, option_map, IfSome, MatchOption};
ghost use Rattle.desk_command.specs.Lines.{Finds, kind_of, line_at};
ghost use Rattle.desk_command.specs.Routes.{IsOf, kind_word, seen};
ghost use Rattle.desk_command.specs.Targets.{parts_in};

use crate::place::Routes;
use crate::target::{Target, find_target};
use catalog_change::ResourceKind;

/// A line of the table of routes, with the parts of the target that it takes.
#[derive(Clone, Copy)]
pub(crate) enum Route<'a> {
    Define,
    Drop { kind: ResourceKind, name: &'a str },
    Load { slot: &'a str },
    Eject { slot: &'a str },
    Label,
    Mount,
    Unmount,
    Inventory,
    Savegrp { group: &'a str },
    Begin,
    Append { ssid: &'a str, offset: &'a str },
    Finish { ssid: &'a str },
    Abort { ssid: &'a str },
    Amend { ssid: &'a str },
    Delete { ssid: &'a str },
    Nsrim,
    Show { ssid: &'a str },
}

/// The route that a request has, by its method and its target.
pub(crate) fn route_of<'a>(routes: &Routes, method: &str, target: &'a str) -> Option<Route<'a>>
    ensures { Finds method.now target.now (option_map seen result) }
{
    match find_target(routes, target) {
        Some(found) => route_by(method, found),
        None => None,
    }
}

// The route of a method and a target.
fn route_by<'a>(method: &str, target: Target<'a>) -> Option<Route<'a>>
    ensures found { option_map seen result ≡ line_at method.now (parts_in target.entry) }
    ensures is { IfSome result (λ route. IsOf method.now (parts_in target.entry) (seen route)) }
{
    match target {
        Target::Resources => only("POST", method, Route::Define),
        Target::Resource { kind, name } => match kind_of(kind) {
            Some(kind) => only("DELETE", method, Route::Drop { kind, name }),
            None => None,
        },
        Target::Slot { slot } => match method {
            "POST" => Some(Route::Load { slot }),
            "DELETE" => Some(Route::Eject { slot }),
            _ => None,
        },
        Target::Label => only("POST", method, Route::Label),
        Target::Mount => only("POST", method, Route::Mount),
        Target::Unmount => only("POST", method, Route::Unmount),
        Target::Inventory => only("GET", method, Route::Inventory),
        Target::Savegrp { group } => only("GET", method, Route::Savegrp { group }),
        Target::Sets => only("POST", method, Route::Begin),
        Target::Set { ssid } => match method {
            "GET" => Some(Route::Show { ssid }),
            "DELETE" => Some(Route::Delete { ssid }),
            _ => None,
        },
        Target::Body { ssid, offset } => only("PUT", method, Route::Append { ssid, offset }),
        Target::Finish { ssid } => only("POST", method, Route::Finish { ssid }),
        Target::Abort { ssid } => only("POST", method, Route::Abort { ssid }),
        Target::Amend { ssid } => only("POST", method, Route::Amend { ssid }),
        Target::Nsrim => only("POST", method, Route::Nsrim),
    }
}

// The only route of a target, whose method is `wanted`.
fn only<'a>(wanted: &str, method: &str, route: Route<'a>) -> Option<Route<'a>>
    ensures { MatchOption result (method.now ≢ wanted.now)
        (λ found. (method.now ≡ wanted.now) × (seen found ≡ seen route.entry)) }
{
    if method == wanted { Some(route) } else { None }
}

fn kind_of(word: &str) -> Option<ResourceKind>
    ensures found { result ≡ kind_of word.now }
    ensures is { IfSome result (λ kind. word.now ≡ kind_word kind) }
{
    match word {
        "policy" => Some(ResourceKind::Policy),
        "pool" => Some(ResourceKind::Pool),
        "client" => Some(ResourceKind::Client),
        "schedule" => Some(ResourceKind::Schedule),
        "group" => Some(ResourceKind::Group),
        _ => None,
    }
}
