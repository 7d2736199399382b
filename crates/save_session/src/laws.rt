//! Laws of sessions: each function has an empty body, and its contract is the law.

ghost use Rattle.std.specs.Prelude.{◌≡◌, ◌≢◌, ◌↔◌, ℕ, ◌+◌, ◌<◌, ◌≤◌, true, false, List, [], ◌++◌};
ghost use Rattle.std.specs.Prelude.{length, Ok, Some, None};
ghost use Rattle.std.specs.List.{AllByRecursion, flat_map};
ghost use Rattle.std.specs.Option.{option_map};
ghost use Rattle.save_stream.specs.declared.head.SetHead.{SetHead};
ghost use Rattle.save_stream.specs.Fields.{HasRead, StreamFields, fields_read};
ghost use Rattle.save_stream.specs.Reading.{Reading, reads};
ghost use Rattle.save_stream.specs.Spelling.{IsHead, Saved, head_text, max_size};
ghost use Rattle.save_stream.specs.Standing.{AreBytes};
ghost use Rattle.media_db.specs.declared.copies.Section.{Section};
ghost use Rattle.save_session.specs.declared.checked.Checked.TheVariants.{New, Repeat, Gap};
ghost use Rattle.save_session.specs.Parts.{IsNextPart, AreSections};
ghost use Rattle.save_session.specs.Runs.{AreLongestRuns, MayFollow, with_parts};
ghost use Rattle.save_session.specs.Sessions.{AreOpenSessions, IsSession, SessionView};
ghost use Rattle.save_session.specs.Sessions.{change_session, check_sent, close_session};
ghost use Rattle.save_session.specs.Sessions.{digest_of, find_session};
ghost use Rattle.save_session.specs.Sessions.{is_on, leave_drive, off_drive, placed_on, ssid_of};
ghost use Rattle.save_session.specs.Sessions.{start_session, started, with_piece, with_pieces};

/// Whatever pieces bytes are cut into, of which the reader takes all, the session is the same after
/// them.
pub fn pieces_join()
    ensures { (session : SessionView) (pieces : List (List ℕ)) (reading : Reading)
        → reads session.reading (flat_map (λ piece. piece) pieces) ≡ Ok reading
        → with_pieces pieces session ≡ with_piece (flat_map (λ piece. piece) pieces) session }
{}

/// Once the stream of a session has ended, it has read the head and the bytes sent as a whole
/// stream, with its entries and the bytes of their files, and its digest is that of the stream.
pub fn ended_sessions_are_whole()
    ensures read { (session : SessionView) → IsSession session → session.reading.ended ≡ true
        → (entries : List Saved)
        × HasRead (head_text session.head ++ session.sent) session.head entries session.reading }
    ensures fields { (session : SessionView) → IsSession session → session.reading.ended ≡ true
        → let fields = fields_read session.head session.sent session.reading in
        StreamFields (head_text session.head ++ session.sent) fields
        × (digest_of session ≡ Some fields.digest) }
{}

/// A session's reader has the session's head.
pub fn readers_have_the_head()
    ensures { (session : SessionView) → IsSession session
        → session.reading.head ≡ Some session.head }
{}

/// Bytes repeat what was sent where they end no further, and else are new where they begin at its
/// end.
pub fn checks_are_exact()
    ensures repeats { (next offset size number : ℕ)
        → (check_sent next offset size ≡ Repeat number)
        ↔ ((offset + size ≤ next) × (number ≡ next)) }
    ensures follows { (next offset size : ℕ)
        → (check_sent next offset size ≡ New) ↔ ((offset ≡ next) × (0 < size)) }
    ensures misses { (next offset size number : ℕ)
        → (check_sent next offset size ≡ Gap number)
        ↔ ((next < offset + size) × (offset ≢ next) × (number ≡ next)) }
{}

/// Sections that grew by parts, each of which might follow those before it, follow each other, and
/// are the longest runs of these parts that lie in one file of one volume.
pub fn sections_are_the_longest_runs()
    ensures runs { (parts : List Section) → MayFollow parts []
        → AreLongestRuns (with_parts parts []) parts }
    ensures sections { (parts : List Section) → MayFollow parts []
        → AreSections (with_parts parts []) }
{}

/// What is found among sessions has the ssid, and is a session.
pub fn found_is_a_session()
    ensures { (sessions : List SessionView) (ssid : ℕ) (session : SessionView)
        → AreOpenSessions sessions → find_session ssid sessions ≡ Some session
        → (ssid_of session ≡ ssid) × IsSession session }
{}

/// What each change of the open sessions leaves are sessions.
pub fn sessions_stay()
    ensures none { AreOpenSessions [] }
    ensures start { (sessions : List SessionView) (head : SetHead) → AreOpenSessions sessions
        → IsHead head → AreOpenSessions (start_session head sessions) }
    ensures take { (sessions : List SessionView) (ssid : ℕ) (session : SessionView) (piece : List ℕ)
        → AreOpenSessions sessions → find_session ssid sessions ≡ Some session → AreBytes piece
        → session.reading.read + length piece ≤ max_size
        → reads session.reading piece ≡ Ok (with_piece piece session).reading
        → AreOpenSessions (change_session ssid (with_piece piece) sessions) }
    ensures place { (sessions : List SessionView) (ssid : ℕ) (session : SessionView) (drive : ℕ)
        (part : Section) → AreOpenSessions sessions → find_session ssid sessions ≡ Some session
        → IsNextPart part session.sections
        → AreOpenSessions (change_session ssid (placed_on drive part) sessions) }
    ensures leave { (sessions : List SessionView) (drive : ℕ) → AreOpenSessions sessions
        → AreOpenSessions (leave_drive drive sessions) }
    ensures close { (sessions : List SessionView) (ssid : ℕ) → AreOpenSessions sessions
        → AreOpenSessions (close_session ssid sessions) }
{}

/// After a start the new session is found, and every other as it was.
pub fn found_after_a_start()
    ensures started { (sessions : List SessionView) (head : SetHead)
        → find_session head.ssid.0 (start_session head sessions) ≡ Some (started head) }
    ensures others { (sessions : List SessionView) (head : SetHead) (ssid : ℕ)
        → ssid ≢ head.ssid.0
        → find_session ssid (start_session head sessions) ≡ find_session ssid sessions }
{}

/// After a change that keeps the ssids, its session is found changed, and every other as it was.
pub fn found_after_a_change()
    ensures changed { (change : SessionView → SessionView)
        → ((session : SessionView) → ssid_of (change session) ≡ ssid_of session)
        → (sessions : List SessionView) (ssid : ℕ)
        → find_session ssid (change_session ssid change sessions)
        ≡ option_map change (find_session ssid sessions) }
    ensures others { (change : SessionView → SessionView)
        → ((session : SessionView) → ssid_of (change session) ≡ ssid_of session)
        → (sessions : List SessionView) (changed ssid : ℕ) → ssid ≢ changed
        → find_session ssid (change_session changed change sessions)
        ≡ find_session ssid sessions }
{}

/// A closed session isn't found, and every other is found as it was.
pub fn found_after_a_close()
    ensures none { (sessions : List SessionView) (ssid : ℕ)
        → find_session ssid (close_session ssid sessions) ≡ None }
    ensures others { (sessions : List SessionView) (closed ssid : ℕ) → ssid ≢ closed
        → find_session ssid (close_session closed sessions) ≡ find_session ssid sessions }
{}

/// No session is on a drive that was left, and each is found with all else as it was.
pub fn found_after_a_drive_was_left()
    ensures found { (sessions : List SessionView) (drive ssid : ℕ)
        → find_session ssid (leave_drive drive sessions)
        ≡ option_map (off_drive drive) (find_session ssid sessions) }
    ensures none { (sessions : List SessionView) (drive : ℕ)
        → AllByRecursion (λ session. is_on drive session.drive ≡ false)
        (leave_drive drive sessions) }
{}
