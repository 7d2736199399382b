//! Where the records and the volumes stand in their lists, found by binary search.

ghost use Rattle.std.specs.Prelude.{◌≡◌, IfSome, option_copied};
ghost use Rattle.std.specs.Ordering.{nat_cmp};
ghost use Rattle.room_base.specs.Ordered.{Ascends, IsPlace};
ghost use Rattle.media_db.specs.Rows.{AreRecords, HasLowerBase, find_record, ssid_of, volid_of};

use crate::{Record, VolumeRec};
use room_base::Ssid;

// Where the record of the ssid is, or where it would go.
pub(crate) fn record_place(records: &[Record], ssid: u64) -> Result<usize, usize>
    requires { Ascends nat_cmp ssid_of records.now }
    ensures { IsPlace nat_cmp ssid_of ssid records.now result }
{
    records.binary_search_by_key(&ssid, |row| row.ssid.0)
}

// Where the volume of the volid is, or where it would go.
pub(crate) fn volume_place(volumes: &[VolumeRec], volid: u64) -> Result<usize, usize>
    requires { Ascends nat_cmp volid_of volumes.now }
    ensures { IsPlace nat_cmp volid_of volid volumes.now result }
{
    volumes.binary_search_by_key(&volid, |volume| volume.volid.0)
}

// The record of the ssid.
pub(crate) fn find_record_in(records: &[Record], ssid: Ssid) -> Option<&Record>
    requires { AreRecords records.now }
    ensures found { option_copied result ≡ find_record ssid.0 records.now }
    ensures ssid { IfSome result (λ row. row.now.ssid ≡ ssid) }
    ensures base { IfSome result (λ row. HasLowerBase row.now) }
{
    match record_place(records, ssid.0) {
        Ok(at) => Some(&records[at]),
        Err(_) => None,
    }
}
