//! Why the system refused a file or a write.
ghost use Rattle.std.specs.IoError.{error_kind};
ghost use Rattle.std.specs.Prelude.{◌≡◌, option_map};
ghost use Rattle.wasm_check_faults.specs.Reasons.{IsReason, is_broken_pipe, reason_hint};

use std::io;

/// Why the system refused to open a file, to read from it or to write, as far as it says.
#[derive(Clone, Copy, Debug, PartialEq, Eq)]
pub enum Reason {
    /// No file has this name.
    NotFound,
    /// It is not allowed.
    PermissionDenied,
    /// It is a directory.
    IsADirectory,
    /// A part of the name before the last is no directory.
    NotADirectory,
    /// The name leads through too many links.
    FilesystemLoop,
    /// The name is longer than names are there.
    InvalidFilename,
    /// No space is left.
    StorageFull,
    /// The user's share of the space is used up.
    QuotaExceeded,
    /// The file would be longer than files may be.
    FileTooLarge,
    /// It is a pipe that nobody reads any more.
    BrokenPipe,
    /// The name is no UTF-8.
    NotUtf8,
    /// It is standard input, and gives the list that names it.
    GivesList,
    /// Any other reason, or none.
    Unknown,
}

impl Reason {
    /// Why the file of this name could not be opened, with this error. A word of the command line that is no UTF-8 has the byte 0 here.
    pub fn of_opening(name: &str, error: &io::Error) -> Reason {
        if name.find('\0').is_some() {
            return Reason::NotUtf8;
        }
        Reason::of(error)
    }

    /// The reason that an error tells.
    pub fn of(error: &io::Error) -> Reason
        ensures { IsReason result (error_kind error.now) }
    {
        let kind = error.kind();
        if kind == io::ErrorKind::NotFound {
            return Reason::NotFound;
        }
        if kind == io::ErrorKind::PermissionDenied {
            return Reason::PermissionDenied;
        }
        if kind == io::ErrorKind::IsADirectory {
            return Reason::IsADirectory;
        }
        if kind == io::ErrorKind::NotADirectory {
            return Reason::NotADirectory;
        }
        if kind == io::ErrorKind::FilesystemLoop {
            return Reason::FilesystemLoop;
        }
        if kind == io::ErrorKind::InvalidFilename {
            return Reason::InvalidFilename;
        }
        if kind == io::ErrorKind::StorageFull {
            return Reason::StorageFull;
        }
        if kind == io::ErrorKind::QuotaExceeded {
            return Reason::QuotaExceeded;
        }
        if kind == io::ErrorKind::FileTooLarge {
            return Reason::FileTooLarge;
        }
        if kind == io::ErrorKind::BrokenPipe {
            return Reason::BrokenPipe;
        }
        Reason::Unknown
    }
}

/// What a person is told of a reason, if it is known.
pub fn reason_hint(reason: Reason) -> Option<&'static str>
    ensures { option_map (λ h. h.now) result ≡ reason_hint reason }
{
    match reason {
        Reason::NotFound => Some("no such file"),
        Reason::PermissionDenied => Some("permission denied"),
        Reason::IsADirectory => Some("is a directory"),
        Reason::NotADirectory => Some("not a directory"),
        Reason::FilesystemLoop => Some("too many links"),
        Reason::InvalidFilename => Some("name too long"),
        Reason::StorageFull => Some("no space left"),
        Reason::QuotaExceeded => Some("quota exceeded"),
        Reason::FileTooLarge => Some("file too large"),
        Reason::BrokenPipe => Some("broken pipe"),
        Reason::NotUtf8 => Some("a name has to be UTF-8"),
        Reason::GivesList => Some("the list comes from standard input"),
        Reason::Unknown => None,
    }
}

/// Whether it is that nobody reads the pipe any more.
pub fn is_broken_pipe(reason: Reason) -> bool
    ensures { result ≡ is_broken_pipe reason }
{
    match reason {
        Reason::NotFound => false,
        Reason::PermissionDenied => false,
        Reason::IsADirectory => false,
        Reason::NotADirectory => false,
        Reason::FilesystemLoop => false,
        Reason::InvalidFilename => false,
        Reason::StorageFull => false,
        Reason::QuotaExceeded => false,
        Reason::FileTooLarge => false,
        Reason::BrokenPipe => true,
        Reason::NotUtf8 => false,
        Reason::GivesList => false,
        Reason::Unknown => false,
    }
}
