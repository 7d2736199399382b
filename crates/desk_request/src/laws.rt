//! Laws of requests: each function has an empty body, and its contract is the law.

ghost use Rattle.std.specs.Prelude.{◌≡◌, ℕ, [], ◌++◌, List, Option, Ok, Err, Some, None};
ghost use Rattle.room_base.specs.Outside.{SourceView};
ghost use Rattle.desk_request.specs.Requests.{RequestText, IsRequest, BeginsNone, Requests};
ghost use Rattle.desk_request.specs.Reading.{ReadsOne};
ghost use Rattle.desk_request.specs.declared.fault.RequestFault.TheVariants.{Bad};

/// Bytes have at most one prefix that is a request, so which requests they are, and where bytes
/// stand that begin none, is settled by the bytes.
pub fn requests_are_one()
    ensures first { (front after other rest : List ℕ) (request another : RequestText)
        → front ++ after ≡ other ++ rest → IsRequest front request → IsRequest other another
        → (front ≡ other) × (request ≡ another) × (after ≡ rest) }
    ensures all { (bytes : List ℕ) (requests others : List RequestText) (bad other_bad : Option ℕ)
        → Requests bytes requests bad → Requests bytes others other_bad
        → (requests ≡ others) × (bad ≡ other_bad) }
{}

/// What is answered of the bytes that were taken holds of all the bytes that there were, those of
/// the buffer and those left in the source.
pub fn answers_hold_of_all_bytes()
    ensures request { (old new : SourceView) (before after : List ℕ) (request : RequestText)
        → ReadsOne old new before after (Ok (Some request))
        → (front : List ℕ) × (before ++ old.left ≡ front ++ (after ++ new.left))
        × IsRequest front request }
    ensures end { (old new : SourceView) (before after : List ℕ)
        → ReadsOne old new before after (Ok None) → before ++ old.left ≡ [] }
    ensures bad { (old new : SourceView) (before after : List ℕ)
        → ReadsOne old new before after (Err Bad) → BeginsNone (before ++ old.left) }
{}
