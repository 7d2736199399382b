ghost use Rattle.std.specs.Prelude.{◌≡◌, IfOk};

use crate::lists::{entries_copy, resources_copy, sections_copy, ssids_copy};
use crate::{Resource, ResourceKind};
use media_db::Section;
use room_base::{Cart, CopyNo, Items, Memory, Moment, Name, Ssid, Volid};
use save_stream::{IndexEntry, SetHead};

/// A change of the catalogue, as the journal holds it.
#[derive(Drop)]
pub enum Change {
    /// Resources were added.
    Defined {
        resources: Items<Resource>,
    },
    /// A resource was removed.
    Dropped {
        kind: ResourceKind,
        name: Name,
    },
    /// A cartridge was put into a slot.
    Loaded {
        slot: u8,
        cart: Cart,
    },
    /// The cartridge of a slot was taken away.
    Ejected {
        slot: u8,
    },
    /// A volume lies on a cartridge. `was` is the label that the cartridge had, or 0.
    Labelled {
        volid: Volid,
        cart: Cart,
        pool: Name,
        capacity: u32,
        was: Volid,
    },
    /// A save began.
    Begun {
        head: SetHead,
    },
    /// A save set is complete.
    Finished {
        ssid: Ssid,
        files: u32,
        bytes: u64,
        digest: [u8; 32],
        sections: Items<Section>,
        index: Items<IndexEntry>,
    },
    /// A save was given up.
    Aborted {
        ssid: Ssid,
    },
    /// A save set has other times, or another hold.
    Amended {
        ssid: Ssid,
        browse: Moment,
        retain: Moment,
        hold: bool,
    },
    /// A save set is no longer on record.
    Deleted {
        ssid: Ssid,
    },
    /// The indexes of these save sets were given up.
    Purged {
        ssids: Items<Ssid>,
    },
    /// A copy of a save set is being made.
    CopyBegun {
        ssid: Ssid,
        copy: CopyNo,
    },
    /// A copy of a save set is done. Copy `removed` goes with that; 0 for none.
    CopyDone {
        ssid: Ssid,
        copy: CopyNo,
        sections: Items<Section>,
        removed: CopyNo,
    },
    /// A part of the index of a save set that will be complete, counted from 0. It is no change by
    /// itself.
    IndexPart {
        ssid: Ssid,
        part: u32,
        index: Items<IndexEntry>,
    },
    /// A save set is complete, with the index that the parts before it hold.
    FinishedParts {
        ssid: Ssid,
        files: u32,
        bytes: u64,
        digest: [u8; 32],
        sections: Items<Section>,
    },
}

impl Change {
    ghost use Rattle.catalog_change.specs.Subjects.{CompleteSets, Copies, Media, Resources, Sets};
    ghost use Rattle.catalog_change.specs.Subjects.{subject_of};

    pub fn copy(&self) -> Result<Change, Memory>
        ensures { IfOk result (λ copy. copy ≡ self.now) }
    {
        match self {
            Change::Defined { .. } | Change::Dropped { .. } => self.copy_of_resources(),
            Change::Loaded { .. } | Change::Ejected { .. } | Change::Labelled { .. } => {
                self.copy_of_media()
            }
            Change::Begun { .. }
            | Change::Aborted { .. }
            | Change::Amended { .. }
            | Change::Deleted { .. }
            | Change::Purged { .. }
            | Change::IndexPart { .. } => self.copy_of_sets(),
            Change::Finished { .. } | Change::FinishedParts { .. } => self.copy_of_complete_set(),
            Change::CopyBegun { .. } | Change::CopyDone { .. } => self.copy_of_copies(),
        }
    }

    // The copy of a change of resources.
    fn copy_of_resources(&self) -> Result<Change, Memory>
        requires { subject_of self.now ≡ Resources }
        ensures { IfOk result (λ copy. copy ≡ self.now) }
    {
        Ok(match self {
            Change::Defined { resources } => Change::Defined {
                resources: resources_copy(resources)?,
            },
            Change::Dropped { kind, name } => Change::Dropped {
                kind: *kind,
                name: name.copy()?,
            },
            _ => unreachable!(),
        })
    }

    // The copy of a change of slots and labels.
    fn copy_of_media(&self) -> Result<Change, Memory>
        requires { subject_of self.now ≡ Media }
        ensures { IfOk result (λ copy. copy ≡ self.now) }
    {
        Ok(match self {
            Change::Loaded { slot, cart } => Change::Loaded {
                slot: *slot,
                cart: *cart,
            },
            Change::Ejected { slot } => Change::Ejected { slot: *slot },
            Change::Labelled {
                volid,
                cart,
                pool,
                capacity,
                was,
            } => Change::Labelled {
                volid: *volid,
                cart: *cart,
                pool: pool.copy()?,
                capacity: *capacity,
                was: *was,
            },
            _ => unreachable!(),
        })
    }

    // The copy of a change of save sets that makes none of them complete.
    fn copy_of_sets(&self) -> Result<Change, Memory>
        requires { subject_of self.now ≡ Sets }
        ensures { IfOk result (λ copy. copy ≡ self.now) }
    {
        Ok(match self {
            Change::Begun { head } => Change::Begun { head: head.copy()? },
            Change::Aborted { ssid } => Change::Aborted { ssid: *ssid },
            Change::Amended {
                ssid,
                browse,
                retain,
                hold,
            } => Change::Amended {
                ssid: *ssid,
                browse: *browse,
                retain: *retain,
                hold: *hold,
            },
            Change::Deleted { ssid } => Change::Deleted { ssid: *ssid },
            Change::Purged { ssids } => Change::Purged {
                ssids: ssids_copy(ssids)?,
            },
            Change::IndexPart { ssid, part, index } => Change::IndexPart {
                ssid: *ssid,
                part: *part,
                index: entries_copy(index)?,
            },
            _ => unreachable!(),
        })
    }

    // The copy of a change that makes a save set complete.
    fn copy_of_complete_set(&self) -> Result<Change, Memory>
        requires { subject_of self.now ≡ CompleteSets }
        ensures { IfOk result (λ copy. copy ≡ self.now) }
    {
        Ok(match self {
            Change::Finished {
                ssid,
                files,
                bytes,
                digest,
                sections,
                index,
            } => Change::Finished {
                ssid: *ssid,
                files: *files,
                bytes: *bytes,
                digest: *digest,
                sections: sections_copy(sections)?,
                index: entries_copy(index)?,
            },
            Change::FinishedParts {
                ssid,
                files,
                bytes,
                digest,
                sections,
            } => Change::FinishedParts {
                ssid: *ssid,
                files: *files,
                bytes: *bytes,
                digest: *digest,
                sections: sections_copy(sections)?,
            },
            _ => unreachable!(),
        })
    }

    // The copy of a change of the copies of a save set.
    fn copy_of_copies(&self) -> Result<Change, Memory>
        requires { subject_of self.now ≡ Copies }
        ensures { IfOk result (λ copy. copy ≡ self.now) }
    {
        Ok(match self {
            Change::CopyBegun { ssid, copy } => Change::CopyBegun {
                ssid: *ssid,
                copy: *copy,
            },
            Change::CopyDone {
                ssid,
                copy,
                sections,
                removed,
            } => Change::CopyDone {
                ssid: *ssid,
                copy: *copy,
                sections: sections_copy(sections)?,
                removed: *removed,
            },
            _ => unreachable!(),
        })
    }
}
