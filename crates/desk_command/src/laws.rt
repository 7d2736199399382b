//! Laws of requests and commands: each function has an empty body, and its contract is the law.

ghost use Rattle.std.specs.Prelude.{◌≡◌, ◌↔◌, List, ℕ, IsTrue};
ghost use Rattle.desk_command.specs.Commands.{CommandOf};
ghost use Rattle.desk_command.specs.Fields.{is_name_to};
ghost use Rattle.desk_command.specs.Outcomes.{Outcome};
ghost use Rattle.desk_command.specs.Routes.{HasRoute, Route};
ghost use Rattle.desk_request.specs.Requests.{RequestText};
ghost use Rattle.room_base.specs.Text.{HasLength, IsName};
ghost use Rattle.room_command.specs.declared.command.Command.{Command};

/// A request has one route at most, and comes to one command or one refusal.
pub fn commands_are_one()
    ensures route { (request : RequestText) (route other : Route)
        → HasRoute request.method request.target route
        → HasRoute request.method request.target other → route ≡ other }
    ensures outcome { (request : RequestText) (one other : Outcome Command)
        → CommandOf request one → CommandOf request other → one ≡ other }
{}

/// The test of a name holds of exactly the names that `Name::read` reads.
pub fn names_are_tested()
    ensures { (most : ℕ) (text : List ℕ)
        → IsTrue (is_name_to most text) ↔ (HasLength most text × IsName text) }
{}
