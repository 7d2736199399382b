//! The lock by which a program has a folder.

ghost use Rattle.std.specs.Prelude.{◌≡◌, IfErr, IsOk, MatchResult};
ghost use Rattle.room_disk.specs.Locking.{LockView, UnlockedView};

use room_base::Name;
use std::fs::{File, TryLockError};
use std::marker::Model;
use std::rt::Files;

/// What a program does with a folder.
#[derive(Clone, Copy)]
pub enum Access {
    Reads,
    Writes,
}

/// Why a folder wasn't locked.
#[derive(Clone, Copy, Drop)]
pub enum LockFault {
    /// Another program has it, or the system gives no locks on it.
    InUse,
    /// There is no such folder, or it can't be read.
    NoFolder,
}

/// The system's lock on a folder, which many programs that read may have, or one that writes. It
/// ends with this value. Nothing is made in the folder. `take` alone makes it.
#[derive(Drop)]
pub struct FolderLock {
    folder: Name,
    access: Access,
    // The folder itself, whose lock ends when this is closed.
    handle: File,
}

impl Model for FolderLock {
    ghost use Rattle.room_disk.specs.Locking.{LockView};

    ghost Value = { LockView };

    ghost view = { λ lock. record { folder = lock.folder; access = lock.access } };
}

/// A lock that was asked for and wasn't had. `FolderLock::take` alone makes it.
#[derive(Drop)]
pub struct Unlocked {
    folder: Name,
    access: Access,
    fault: LockFault,
}

impl Model for Unlocked {
    ghost use Rattle.room_disk.specs.Locking.{UnlockedView};

    ghost Value = { UnlockedView };

    ghost view = { λ unlocked. record {
      wanted = record { folder = unlocked.folder; access = unlocked.access };
      fault = unlocked.fault;
    } };
}

impl FolderLock {
    /// Locks the folder of this name, for reading or for writing too. Never waits.
    pub fn take<R: Files<File = File>>(
        rt: &R,
        folder: Name,
        access: Access,
    ) -> Result<FolderLock, Unlocked>
        ensures { MatchResult result (λ lock. lock ≡ record { folder = folder; access = access })
            (λ unlocked. unlocked.wanted ≡ record { folder = folder; access = access }) }
    {
        match locked(rt, folder.as_str(), access) {
            Ok(handle) => Ok(FolderLock {
                folder,
                access,
                handle,
            }),
            Err(fault) => Err(Unlocked {
                folder,
                access,
                fault,
            }),
        }
    }

    /// The name of the folder.
    pub fn folder(&self) -> &str
        ensures { result.now ≡ self.now.folder }
    {
        self.folder.as_str()
    }

    pub fn access(&self) -> Access
        ensures { result ≡ self.now.access }
    {
        self.access
    }
}

impl Unlocked {
    pub fn fault(&self) -> LockFault
        ensures { result ≡ self.now.fault }
    {
        self.fault
    }
}

// The folder, open and locked.
fn locked<R: Files<File = File>>(rt: &R, folder: &str, access: Access) -> Result<File, LockFault> {
    let handle = opened(rt, folder)?;
    had(match access {
        Access::Reads => handle.try_lock_shared(),
        Access::Writes => handle.try_lock(),
    })?;
    Ok(handle)
}

// The folder, open. What isn't a folder is none.
fn opened<R: Files<File = File>>(rt: &R, folder: &str) -> Result<File, LockFault>
    ensures { IfErr result (λ fault. fault ≡ LockFault.NoFolder) }
{
    let Ok(handle) = File::open(rt, folder) else {
        return Err(LockFault::NoFolder);
    };
    match handle.metadata() {
        Ok(found) if found.is_dir() => Ok(handle),
        _ => Err(LockFault::NoFolder),
    }
}

// A lock that the system doesn't give is in use.
fn had(locked: Result<(), TryLockError>) -> Result<(), LockFault>
    ensures { MatchResult locked (λ _. IsOk result) (λ _. result ≡ Err LockFault.InUse) }
{
    match locked {
        Ok(()) => Ok(()),
        Err(_) => Err(LockFault::InUse),
    }
}
