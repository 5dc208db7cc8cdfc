// The script of an install.
ghost use Rattle.std.specs.Prelude.{◌≡◌};
ghost use Rattle.std.specs.Option.{option_copied};
ghost use Rattle.script_state.specs.Finding.{script_for};

use otp_files::RelupEntry;
use release_table::Release;

/// The script that leads from the release that runs to another, with its version and description: up from the one, in the relup
/// of the other, or else down to the other, in the relup of the one. Takes no memory.
pub fn script_for<'a>(running: &'a Release, new: &'a Release) -> Option<&'a RelupEntry>
    ensures { option_copied result ≡ script_for running.now new.now }
{
    match new.relup.up_from(&running.rel.vsn) {
        Some(entry) => Some(entry),
        None => running.relup.down_to(&new.rel.vsn),
    }
}
