//! Laws of the lists: each function has an empty body, and its contract is the law.

ghost use Rattle.std.specs.Prelude.{◌≡◌, ◌≢◌, ℕ, List, Some, None, true, false, if◌then◌else◌};
ghost use Rattle.std.specs.List.{AllByRecursion, Contains};
ghost use Rattle.std.specs.Option.{option_and_then, option_map};
ghost use Rattle.save_stream.specs.Fields.{Fields};
ghost use Rattle.media_db.specs.declared.copies.SetCopy.{SetCopy};
ghost use Rattle.media_db.specs.declared.records.Record.{Record};
ghost use Rattle.media_db.specs.declared.volumes.VolumeRec.{VolumeRec};
ghost use Rattle.media_db.specs.Edits.{drop_copies_on, has_copy_if_complete, is_done_on};
ghost use Rattle.media_db.specs.Edits.{without_copies_on};
ghost use Rattle.media_db.specs.Rows.{AreRecords, AreVolumes, IsLeastOn, find_record, find_volume};
ghost use Rattle.media_db.specs.Rows.{put_row, put_volume, remove_row, remove_volume, update_row};
ghost use Rattle.media_db.specs.Rows.{volume_on};
ghost use Rattle.media_db.specs.Streams.{from_stream, head_of};

/// What was put is found, and at every other number what was found before.
pub fn found_after_a_put()
    ensures record_put { (row : Record) (rows : List Record)
        → find_record row.ssid.0 (put_row row rows) ≡ Some row }
    ensures other_record { (row : Record) (rows : List Record) (ssid : ℕ) → ssid ≢ row.ssid.0
        → find_record ssid (put_row row rows) ≡ find_record ssid rows }
    ensures volume_put { (volume : VolumeRec) (volumes : List VolumeRec)
        → find_volume volume.volid.0 (put_volume volume volumes) ≡ Some volume }
    ensures other_volume { (volume : VolumeRec) (volumes : List VolumeRec) (volid : ℕ)
        → volid ≢ volume.volid.0
        → find_volume volid (put_volume volume volumes) ≡ find_volume volid volumes }
{}

/// What was removed isn't found, and at every other number what was found before.
pub fn found_after_a_removal()
    ensures no_record { (rows : List Record) (ssid : ℕ)
        → find_record ssid (remove_row ssid rows) ≡ None }
    ensures other_record { (rows : List Record) (gone ssid : ℕ) → ssid ≢ gone
        → find_record ssid (remove_row gone rows) ≡ find_record ssid rows }
    ensures no_volume { (volumes : List VolumeRec) (volid : ℕ)
        → find_volume volid (remove_volume volid volumes) ≡ None }
    ensures other_volume { (volumes : List VolumeRec) (gone volid : ℕ) → volid ≢ gone
        → find_volume volid (remove_volume gone volumes) ≡ find_volume volid volumes }
{}

/// After an edit that keeps the ssids, its record is found edited, and every other as it was.
pub fn found_after_an_edit()
    ensures edited { (change : Record → Record) → ((row : Record) → (change row).ssid ≡ row.ssid)
        → (rows : List Record) (ssid : ℕ)
        → find_record ssid (update_row ssid change rows)
        ≡ option_map change (find_record ssid rows) }
    ensures others { (change : Record → Record) → ((row : Record) → (change row).ssid ≡ row.ssid)
        → (rows : List Record) (edited ssid : ℕ) → ssid ≢ edited
        → find_record ssid (update_row edited change rows) ≡ find_record ssid rows }
{}

/// After the copies on a volume went, a record is found without them, and isn't if it was complete
/// and has no done copy then.
pub fn found_after_a_drop()
    ensures { (rows : List Record) (volid ssid : ℕ) → AreRecords rows
        → find_record ssid (drop_copies_on volid rows)
        ≡ option_and_then (λ row. if has_copy_if_complete (without_copies_on volid row)
        then Some (without_copies_on volid row) else None) (find_record ssid rows) }
{}

/// No done copy on the volume is left, and each complete record has a done copy.
pub fn no_copy_is_left_on_the_volume()
    ensures copies { (rows : List Record) (volid : ℕ)
        → AllByRecursion (λ row. AllByRecursion (λ copy. is_done_on volid copy ≡ false) row.copies)
        (drop_copies_on volid rows) }
    ensures records { (rows : List Record) (volid : ℕ)
        → AllByRecursion (λ row. has_copy_if_complete row ≡ true) (drop_copies_on volid rows) }
{}

/// What is found has the number, and is in the list; and what is in the list is found by its
/// number.
pub fn found_is_listed()
    ensures record_number { (rows : List Record) (ssid : ℕ) (row : Record)
        → find_record ssid rows ≡ Some row → row.ssid.0 ≡ ssid }
    ensures record_listed { (rows : List Record) (ssid : ℕ) (row : Record)
        → find_record ssid rows ≡ Some row → Contains rows row }
    ensures record_found { (rows : List Record) (row : Record) → AreRecords rows → Contains rows row
        → find_record row.ssid.0 rows ≡ Some row }
    ensures volume_number { (volumes : List VolumeRec) (volid : ℕ) (volume : VolumeRec)
        → find_volume volid volumes ≡ Some volume → volume.volid.0 ≡ volid }
    ensures volume_listed { (volumes : List VolumeRec) (volid : ℕ) (volume : VolumeRec)
        → find_volume volid volumes ≡ Some volume → Contains volumes volume }
    ensures volume_found { (volumes : List VolumeRec) (volume : VolumeRec) → AreVolumes volumes
        → Contains volumes volume → find_volume volume.volid.0 volumes ≡ Some volume }
{}

/// The volume on a cartridge is the one of least volid that lies there.
pub fn least_on_a_cartridge()
    ensures { (volumes : List VolumeRec) (cart : ℕ) → AreVolumes volumes
        → IsLeastOn cart volumes (volume_on cart volumes) }
{}

/// The lists have nothing but what is found in them.
pub fn lists_are_what_is_found()
    ensures records { (rows others : List Record) → AreRecords rows → AreRecords others
        → ((ssid : ℕ) → find_record ssid rows ≡ find_record ssid others) → rows ≡ others }
    ensures volumes { (volumes others : List VolumeRec) → AreVolumes volumes → AreVolumes others
        → ((volid : ℕ) → find_volume volid volumes ≡ find_volume volid others) → volumes ≡ others }
{}

/// A record that was taken from a stream has that stream's head.
pub fn record_keeps_the_head()
    ensures { (fields : Fields) (copies : List SetCopy) (next_copy : ℕ)
        → head_of (from_stream fields copies next_copy) ≡ fields.head }
{}
