// The texts that a command reads, and what is said of those that can't be used.
ghost use Rattle.std.specs.Prelude.{◌≡◌};
ghost use Rattle.scenopt.specs.Endings as endings;
ghost use Rattle.scenopt.specs.Files as files;
ghost use Rattle.scenopt.specs.Messages as spec;

use crate::status::Status;
use mps_reader::MAX_BYTES;

// The most bytes of a log's file.
const MAX_LOG_BYTES: usize = 1_073_741_824;

/// A text that a command reads from a file.
#[derive(Clone, Copy, Debug, PartialEq, Eq)]
pub(crate) enum Input {
    Model,
    Changes,
    Log,
}

impl Input {
    /// The most bytes that the file may have.
    pub(crate) fn limit(self) -> usize
        ensures { result ≡ files.limit self }
    {
        match self {
            Input::Model | Input::Changes => MAX_BYTES,
            Input::Log => MAX_LOG_BYTES,
        }
    }

    /// The status where the text is refused.
    pub(crate) fn refused(self) -> Status
        ensures { result ≡ endings.refused self }
    {
        match self {
            Input::Model => Status::ModelRefused,
            Input::Changes => Status::ChangesRefused,
            Input::Log => Status::LogRefused,
        }
    }

    /// What is said where the file can't be read.
    pub(crate) fn unreadable(self) -> &'static [u8]
        ensures { result.now ≡ spec.unreadable self }
    {
        match self {
            Input::Model => b"cannot read model\n",
            Input::Changes => b"cannot read changes\n",
            Input::Log => b"cannot read log\n",
        }
    }

    /// What is said where the file is longer than the limit.
    pub(crate) fn too_long(self) -> &'static [u8]
        ensures { result.now ≡ spec.too_long self }
    {
        match self {
            Input::Model => b"model: too long\n",
            Input::Changes => b"changes: too long\n",
            Input::Log => b"log: too long\n",
        }
    }
}
