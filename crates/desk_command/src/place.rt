//! The places of the desk, where targets lead, in a router.

ghost use Rattle.std.specs.Prelude.{◌≡◌, Some, None, OnOk, OnErr, IfOk};
ghost use Rattle.matchit.specs.Order.{placed};
ghost use Rattle.matchit.specs.Seek.{first};
ghost use Rattle.desk_command.specs.Places.{all_rows, row_of, text_of};

use matchit::{Match, MatchError, Router};
use room_base::Memory;
use std::alloc::Global;
use std::marker::Model;

/// Where a target leads, whatever the method.
#[derive(Clone, Copy)]
pub(crate) enum Place {
    Resources,
    Resource,
    Slot,
    Label,
    Mount,
    Unmount,
    Inventory,
    Savegrp,
    Sets,
    Set,
    Body,
    Finish,
    Abort,
    Amend,
    Nsrim,
}

/// The places that targets lead to. It is made once, and serves all requests.
#[derive(Drop)]
pub struct Routes {
    router: Router<Place>,
}

impl Model for Routes {
    ghost use Rattle.std.specs.Prelude.{◌≡◌, ⊤};
    ghost use Rattle.desk_command.specs.Places.{all_rows};

    ghost Value = { ⊤ };

    ghost view = { λ _. tt };

    ghost invariant = { λ routes. routes.router ≡ all_rows };
}

impl Routes {
    pub fn new(alloc: Global) -> Result<Routes, Memory> {
        let mut router = Router::new(alloc);
        put(&mut router, "/resources", Place::Resources)?;
        put(&mut router, "/resources/{kind}/{name}", Place::Resource)?;
        put(&mut router, "/slots/{slot}", Place::Slot)?;
        put(&mut router, "/label", Place::Label)?;
        put(&mut router, "/mount", Place::Mount)?;
        put(&mut router, "/unmount", Place::Unmount)?;
        put(&mut router, "/inventory", Place::Inventory)?;
        put(&mut router, "/savegrp/{group}", Place::Savegrp)?;
        put(&mut router, "/sets", Place::Sets)?;
        put(&mut router, "/sets/{ssid}", Place::Set)?;
        put(&mut router, "/sets/{ssid}/body/{offset}", Place::Body)?;
        put(&mut router, "/sets/{ssid}/finish", Place::Finish)?;
        put(&mut router, "/sets/{ssid}/abort", Place::Abort)?;
        put(&mut router, "/sets/{ssid}/amend", Place::Amend)?;
        put(&mut router, "/nsrim", Place::Nsrim)?;
        Ok(Routes { router })
    }

    /// The place of a target.
    pub(crate) fn at<'a, 'p>(
        &'a self,
        target: &'p str,
    ) -> Result<Match<'a, 'p, &'a Place>, MatchError>
        ensures found { IfOk result (λ found. first all_rows target.now ≡ Some (record {
          pattern = found.params.pattern.now;
          text = found.params.text.now;
          names = found.params.names.now;
          value = found.value.now;
        })) }
        ensures path { IfOk result (λ found. found.params.path.now ≡ target.now) }
        ensures missing { OnErr result (first all_rows target.now ≡ None) }
    {
        self.router.at(target)
    }
}

// Adds the route of a place. It fails for want of memory alone, since no two routes conflict.
fn put(router: &mut Router<Place>, route: &str, place: Place) -> Result<(), Memory>
    requires { route.now ≡ text_of place }
    ensures { OnOk result (router.new ≡ placed (row_of place) router.old) }
{
    match router.insert(route, place) {
        Ok(()) => Ok(()),
        Err(_) => Err(Memory),
    }
}
