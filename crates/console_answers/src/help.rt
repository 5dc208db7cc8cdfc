// What the console says of each command.
ghost use Rattle.std.specs.Prelude.{◌≡◌, OnOk};
ghost use Rattle.console_answers.specs.Comments.{AddsComments};
ghost use Rattle.console_answers.specs.Help.{is_command};

use crate::comments::put_comment;
use std::alloc::AllocError;

/// The commands of the shell, and then those of the console alone.
const COMMANDS: [&str; 36] = [
    "load",
    "delete",
    "purge",
    "soft_purge",
    "modules",
    "call",
    "cast",
    "send",
    "take",
    "retake",
    "commit",
    "replies",
    "proc",
    "revive",
    "apps",
    "unpack",
    "remove",
    "which",
    "install",
    "step",
    "permanent",
    "reboot",
    "sweep",
    "relup",
    "mark",
    "undo",
    "forget",
    "help",
    "processes",
    "queue",
    "children",
    "jobs",
    "journal",
    "script",
    "releases",
    "preview",
];

/// The line of the command that a word is: a table, a command a line.
macro_rules! line_in {
    ($word:expr; $($command:literal => $line:literal,)*) => {{
        $(if $word == $command {
            return $line;
        })*
        ""
    }};
}

/// Whether a word is a command.
pub fn is_command(word: &str) -> bool
    ensures { result ≡ is_command word.now }
{
    COMMANDS.iter().any(|it| *it == word)
}

/// Returns what is said of the command that a word is: its operands, and what it does.
pub fn help_on(word: &str) -> &'static str {
    line_in!(word;
        "load" => "load MOD PATH: makes the source at PATH the current code of MOD, and its current code old",
        "delete" => "delete MOD: makes the current code of MOD old",
        "purge" => "purge MOD: drops the old code of MOD, and kills the processes that use it",
        "soft_purge" => "soft_purge MOD: drops the old code of MOD, if no process uses it",
        "modules" => "modules: lists the modules, with the serials of their current and old code",
        "call" => "call NAME TERM: sends a call to the process of a name; its reply comes with the commit of its job",
        "cast" => "cast NAME TERM: sends a cast to the process of a name",
        "send" => "send NAME TERM: sends a message to the process of a name",
        "take" => "take PROC: has a process take its next message; the answer names the job",
        "retake" => "retake PROC: names the job that a process runs once more",
        "commit" => "commit J: runs job J, and commits what it gives; the answer has its replies",
        "replies" => "replies: lists all replies that were ever sent",
        "proc" => "proc PROC: shows a process: where it rests, what it does, its turn and its mailbox",
        "revive" => "revive APP ID: starts a child again that is due",
        "apps" => "apps: lists the applications, with their versions",
        "unpack" => "unpack VSN: reads the release of a version, so that it can be installed",
        "remove" => "remove VSN: has the node know a release no more; the permanent one stays",
        "which" => "which: lists the releases, with their applications and statuses",
        "install" => "install VSN: begins the script that leads to the release of a version",
        "step" => "step: carries out the next instruction of the script; step give_up passes over the processes that it would wait for",
        "permanent" => "permanent VSN: has the release that runs be the one that runs after a restart",
        "reboot" => "reboot VSN: restarts the node with the old release of VSN, which is permanent then",
        "sweep" => "sweep: purges the old code that scripts left to be purged softly, where no process uses it",
        "relup" => "relup FROM TO: prints the script that leads from one release to another",
        "mark" => "mark: returns the mark where the node is; mark NAME gives it a name",
        "undo" => "undo K: takes back every step after mark K, or after the mark of a name; the answer reports the replies and arrivals since",
        "forget" => "forget K: lets go of all before mark K, or before the mark of a name",
        "help" => "help: lists the commands; help COMMAND shows one",
        "processes" => "processes: lists the processes: pid, name, code, what each does, how many messages wait, and the child that it is",
        "queue" => "queue PROC: lists the messages that wait for a process",
        "children" => "children: lists the children of the applications: their pids, restart types and states",
        "jobs" => "jobs: lists the jobs that are kept, and which can be committed",
        "journal" => "journal: lists the steps that are not undone: their marks, the lines that made them, and the names of marks; journal K those from mark K on",
        "script" => "script: shows the script that runs: its next instruction, and whether it waits for a process",
        "releases" => "releases: lists the releases, with what their statuses mean",
        "preview" => "preview K: shows what undo K would report, and the steps that it would take back",
    )
}

/// Appends a line of comment for each command.
///
/// # Errors
///
/// `AllocError` if an allocation fails. A front of the lines may be there then.
pub fn write_help(out: &mut Vec<u8>) -> Result<(), AllocError>
    ensures { OnOk result (AddsComments out.old.items out.new.items) }
{
    for word in COMMANDS.iter() {
        put_comment(help_on(word).as_bytes(), out)?;
    }
    Ok(())
}
