//! How a file is held against other runs of the program, by the host's advisory locks.

ghost use Rattle.std.specs.Prelude.{◌≡◌, ◌≢◌, ◌⊎◌, ◌↔◌, IsTrue, IfOk};
ghost use Rattle.qback.specs.Holding.{AnswersReads, AnswersWrites, AnswersSyncs};

use std::fs::{File, TryLockError};
use std::io::{self, ErrorKind};

/// The host's number for a lock that its file system can't give.
const NO_LOCKS: i32 = 37;

/// How a file is held.
#[derive(Clone, Copy)]
pub enum Hold {
    /// Beside others that read it: nobody writes it.
    Shared,
    /// Alone.
    Alone,
    /// Not at all, on a file system without locks.
    Unlocked,
    /// Not at all, since another run writes it: it is only read.
    Foreign,
    /// No longer: another run may have written it since it was read.
    Lost,
}

impl Hold {
    /// Whether a file that is held so answers its size and reads.
    pub fn reads(self) -> bool
        ensures { IsTrue result ↔ AnswersReads self }
    {
        match self {
            Hold::Shared | Hold::Alone | Hold::Unlocked | Hold::Foreign => true,
            Hold::Lost => false,
        }
    }

    /// Whether it answers writes.
    pub fn writes(self) -> bool
        ensures { IsTrue result ↔ AnswersWrites self }
    {
        match self {
            Hold::Alone | Hold::Unlocked => true,
            Hold::Shared | Hold::Foreign | Hold::Lost => false,
        }
    }

    /// Whether it answers syncs.
    pub fn syncs(self) -> bool
        ensures { IsTrue result ↔ AnswersSyncs self }
    {
        match self {
            Hold::Shared | Hold::Alone | Hold::Unlocked => true,
            Hold::Foreign | Hold::Lost => false,
        }
    }
}

/// Whether an error says that the file system has no locks.
fn tells_no_locks(error: &io::Error) -> bool {
    error.kind() == ErrorKind::Unsupported || error.raw_os_error() == Some(NO_LOCKS)
}

/// Holds a file that was opened, beside others that read it.
pub fn share(file: &File) -> io::Result<Hold>
    ensures { IfOk result (λ hold. hold ≢ Hold.Alone) }
{
    match file.try_lock_shared() {
        Ok(()) => Ok(Hold::Shared),
        Err(TryLockError::WouldBlock) => Ok(Hold::Foreign),
        Err(TryLockError::Error(error)) if tells_no_locks(&error) => Ok(Hold::Unlocked),
        Err(TryLockError::Error(error)) => Err(error),
    }
}

/// Holds a file that was made.
pub fn take(file: &File) -> io::Result<Hold>
    ensures { IfOk result (λ hold. AnswersWrites hold) }
{
    match file.try_lock() {
        Ok(()) => Ok(Hold::Alone),
        Err(TryLockError::Error(error)) if tells_no_locks(&error) => Ok(Hold::Unlocked),
        Err(error) => Err(io::Error::from(error)),
    }
}

/// How a file is held that is about to be written.
pub fn before_write(file: &File, hold: Hold) -> Hold
    ensures kept { hold ≢ Hold.Shared → result ≡ hold }
    ensures taken { hold ≡ Hold.Shared → (result ≡ Hold.Alone) ⊎ (result ≡ Hold.Lost) }
{
    match hold {
        Hold::Shared => match file.try_lock() {
            Ok(()) => Hold::Alone,
            Err(_) => Hold::Lost,
        },
        _ => hold,
    }
}
