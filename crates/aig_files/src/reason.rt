//! Why the system did not do what was asked of a file.
ghost use Rattle.std.specs.Prelude.{◌≡◌};
ghost use Rattle.aig_files.specs.Reasons.{reason_of, reason_words};

use std::io::Error;

/// Why the system did not do what was asked of a file, of the reasons that files give.
#[derive(Clone, Copy)]
pub enum Reason {
    /// `EPERM`.
    NotPermitted,
    /// `ENOENT`.
    NotFound,
    /// `EINTR`.
    Interrupted,
    /// `EIO`.
    InputOutput,
    /// `ENXIO`.
    NoDevice,
    /// `ENOMEM`.
    NoMemory,
    /// `EACCES`.
    Denied,
    /// `EBUSY`.
    Busy,
    /// `ENOTDIR`.
    NotAFolder,
    /// `EISDIR`.
    IsAFolder,
    /// `EINVAL`.
    Invalid,
    /// `ENFILE`.
    FilesOfSystem,
    /// `EMFILE`.
    FilesOfProcess,
    /// `ETXTBSY`.
    RunningProgram,
    /// `EFBIG`.
    FileTooLarge,
    /// `ENOSPC`.
    NoSpace,
    /// `EROFS`.
    ReadOnly,
    /// `EPIPE`.
    BrokenPipe,
    /// `ENAMETOOLONG`.
    NameTooLong,
    /// `ELOOP`.
    LinksGoRound,
    /// `ETIMEDOUT`.
    TimedOut,
    /// `ESTALE`.
    Stale,
    /// `EDQUOT`.
    QuotaExceeded,
}

impl Reason {
    /// The words of the C library.
    pub fn words(self) -> &'static str
        ensures { result.now ≡ reason_words self }
    {
        match self {
            Reason::NotPermitted => "Operation not permitted",
            Reason::NotFound => "No such file or directory",
            Reason::Interrupted => "Interrupted system call",
            Reason::InputOutput => "Input/output error",
            Reason::NoDevice => "No such device or address",
            Reason::NoMemory => "Cannot allocate memory",
            Reason::Denied => "Permission denied",
            Reason::Busy => "Device or resource busy",
            Reason::NotAFolder => "Not a directory",
            Reason::IsAFolder => "Is a directory",
            Reason::Invalid => "Invalid argument",
            Reason::FilesOfSystem => "Too many open files in system",
            Reason::FilesOfProcess => "Too many open files",
            Reason::RunningProgram => "Text file busy",
            Reason::FileTooLarge => "File too large",
            Reason::NoSpace => "No space left on device",
            Reason::ReadOnly => "Read-only file system",
            Reason::BrokenPipe => "Broken pipe",
            Reason::NameTooLong => "File name too long",
            Reason::LinksGoRound => "Too many levels of symbolic links",
            Reason::TimedOut => "Connection timed out",
            Reason::Stale => "Stale file handle",
            Reason::QuotaExceeded => "Disk quota exceeded",
        }
    }

    /// The reason of this number, as Linux numbers errors; none where files do not give it.
    fn of_number(number: u32) -> Option<Reason>
        ensures { result ≡ reason_of number }
    {
        let reason = match number {
            1 => Reason::NotPermitted,
            2 => Reason::NotFound,
            4 => Reason::Interrupted,
            5 => Reason::InputOutput,
            6 => Reason::NoDevice,
            12 => Reason::NoMemory,
            13 => Reason::Denied,
            16 => Reason::Busy,
            20 => Reason::NotAFolder,
            21 => Reason::IsAFolder,
            22 => Reason::Invalid,
            23 => Reason::FilesOfSystem,
            24 => Reason::FilesOfProcess,
            26 => Reason::RunningProgram,
            27 => Reason::FileTooLarge,
            28 => Reason::NoSpace,
            30 => Reason::ReadOnly,
            32 => Reason::BrokenPipe,
            36 => Reason::NameTooLong,
            40 => Reason::LinksGoRound,
            110 => Reason::TimedOut,
            116 => Reason::Stale,
            122 => Reason::QuotaExceeded,
            _ => return None,
        };
        Some(reason)
    }

    /// The reason that the system gave, if it is one.
    pub(crate) fn of_error(error: &Error) -> Option<Reason> {
        let number = u32::try_from(error.raw_os_error()?).ok()?;
        Reason::of_number(number)
    }
}
