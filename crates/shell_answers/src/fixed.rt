// Answers that have nothing in them but their words.
ghost use Rattle.std.specs.Prelude.{◌≡◌, ◌++◌, OnOk};
ghost use Rattle.shell_answers.specs.Answers.{fixed, line_of};

use crate::bytes::put;
use std::alloc::AllocError;

/// The answers that have nothing in them but their words.
#[derive(Clone, Copy)]
pub enum Fixed {
    /// `ok`
    Done,
    /// `true`
    True,
    /// `false`
    False,
    /// `{error,bad_command}`
    BadCommand,
    /// `{error,line_too_long}`
    LineTooLong,
    /// `{error,serial_end}`
    SerialEnd,
    /// `{error,counter_end}`
    CounterAtEnd,
    /// `{error,forgotten}`
    Forgotten,
    /// `{error,dead_mark}`
    DeadMark,
    /// `{error,memory}`
    Memory,
    /// `{error,no_job}`
    NoJob,
    /// `{error,no_proc}`
    NoProc,
    /// `{error,suspended}`
    Suspended,
    /// `{error,running}`
    Running,
    /// `{error,idle}`
    Idle,
    /// `{error,not_running}`
    NotRunning,
    /// `{error,stale}`
    Stale,
    /// `{error,duplicate_call}`
    DuplicateCall,
    /// `{error,name_taken}`
    NameTaken,
    /// `{error,no_child}`
    NoChild,
    /// `{error,not_due}`
    NotDue,
    /// `{error,installing}`
    Installing,
    /// `{error,not_installing}`
    NotInstalling,
    /// `{error,erts_changed}`
    ErtsChanged,
    /// `{error,stepped_only}`
    SteppedOnly,
    /// `{error,no_reply}`
    NoReply,
}

impl Fixed {
    /// The line.
    fn line(self) -> &'static [u8]
        ensures { result.now ≡ line_of (fixed self) }
    {
        match self {
            Fixed::Done => b"ok\n",
            Fixed::True => b"true\n",
            Fixed::False => b"false\n",
            Fixed::BadCommand => b"{error,bad_command}\n",
            Fixed::LineTooLong => b"{error,line_too_long}\n",
            Fixed::SerialEnd => b"{error,serial_end}\n",
            Fixed::CounterAtEnd => b"{error,counter_end}\n",
            Fixed::Forgotten => b"{error,forgotten}\n",
            Fixed::DeadMark => b"{error,dead_mark}\n",
            Fixed::Memory => b"{error,memory}\n",
            Fixed::NoJob => b"{error,no_job}\n",
            Fixed::NoProc => b"{error,no_proc}\n",
            Fixed::Suspended => b"{error,suspended}\n",
            Fixed::Running => b"{error,running}\n",
            Fixed::Idle => b"{error,idle}\n",
            Fixed::NotRunning => b"{error,not_running}\n",
            Fixed::Stale => b"{error,stale}\n",
            Fixed::DuplicateCall => b"{error,duplicate_call}\n",
            Fixed::NameTaken => b"{error,name_taken}\n",
            Fixed::NoChild => b"{error,no_child}\n",
            Fixed::NotDue => b"{error,not_due}\n",
            Fixed::Installing => b"{error,installing}\n",
            Fixed::NotInstalling => b"{error,not_installing}\n",
            Fixed::ErtsChanged => b"{error,erts_changed}\n",
            Fixed::SteppedOnly => b"{error,stepped_only}\n",
            Fixed::NoReply => b"{error,no_reply}\n",
        }
    }

    /// Appends the line.
    pub fn write(self, out: &mut Vec<u8>) -> Result<(), AllocError>
        ensures { OnOk result (out.new.items ≡ out.old.items ++ line_of (fixed self)) }
    {
        put(self.line(), out)
    }
}
