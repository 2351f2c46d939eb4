// What a request asks for.
ghost use Rattle.std.specs.Prelude.{◌≡◌};
ghost use Rattle.nbd_messages.specs.Requests.{command_of as command_by};

/// A command of the protocol.
#[derive(Clone, Copy, PartialEq, Eq)]
pub enum Command {
    /// Bytes of the export.
    Read,
    /// Bytes follow that are to be written.
    Write,
    /// The connection ends.
    Disconnect,
    /// What was written is to last.
    Flush,
    /// Bytes of the export are needed no more.
    Trim,
    /// Zeros are to be written.
    WriteZeroes,
    /// Which bytes are zeros.
    BlockStatus,
    /// Any other command.
    Other,
}

/// Which command a number asks for.
pub fn command_of(number: u16) -> Command
    ensures { result ≡ command_by number }
{
    match number {
        0 => Command::Read,
        1 => Command::Write,
        2 => Command::Disconnect,
        3 => Command::Flush,
        4 => Command::Trim,
        6 => Command::WriteZeroes,
        7 => Command::BlockStatus,
        _ => Command::Other,
    }
}
