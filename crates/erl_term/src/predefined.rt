// Atoms that take no memory, and how an atom is kept.
ghost use Rattle.std.specs.Prelude.{◌≡◌, ◌≤◌, length};
ghost use Rattle.std.specs.Str.{chars};
ghost use Rattle.erl_term.specs.Names.{spelled};

use std::sync::ArcStr;

/// An atom that is there from the start and takes no memory, as the predefined atoms of Erlang's run-time system are (OTP's
/// `atom.names`): what the steps of processes name again and again.
#[derive(Clone, Copy, Debug, PartialEq, Eq)]
pub enum Predefined {
    /// `true`
    True,
    /// `false`
    False,
    /// `ok`
    OkWord,
    /// `normal`
    Normal,
    /// `killed`
    Killed,
    /// `undef`
    Undef,
    /// `init`
    Init,
    /// `$gen_call`
    GenCall,
    /// `$gen_cast`
    GenCast,
    /// `handle_call`
    HandleCall,
    /// `handle_cast`
    HandleCast,
    /// `handle_info`
    HandleInfo,
}

/// How an atom's characters are kept.
#[derive(Drop)]
pub(crate) enum Name {
    /// Nowhere: the program has them.
    Known(Predefined),
    /// In a text that its owners share.
    Shared(ArcStr),
}

impl Predefined {
    /// Its characters.
    pub(crate) fn as_str(self) -> &'static str
        ensures { chars result.now ≡ spelled self }
    {
        match self {
            Predefined::True => "true",
            Predefined::False => "false",
            Predefined::OkWord => "ok",
            Predefined::Normal => "normal",
            Predefined::Killed => "killed",
            Predefined::Undef => "undef",
            Predefined::Init => "init",
            Predefined::GenCall => "$gen_call",
            Predefined::GenCast => "$gen_cast",
            Predefined::HandleCall => "handle_call",
            Predefined::HandleCast => "handle_cast",
            Predefined::HandleInfo => "handle_info",
        }
    }
}
