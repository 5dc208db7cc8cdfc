// Replies that a seat reads.
ghost use Rattle.std.specs.Prelude.{◌≡◌, find, nat_eq};
ghost use Rattle.std.specs.Option.{option_copied};

use entry_lists::Run;
use node_history::{Command, Line, Said};
use process_effects::Reply;

/// The first reply to the call of a number.
pub(crate) fn reply_to(replies: &[Reply], number: u64) -> Option<&Reply>
    ensures { option_copied result ≡ find (λ reply. nat_eq reply.number number) replies.now }
{
    replies.iter().find(|reply| reply.number == number)
}

/// Where a read of replies has ended, if a line is one that brought some, and its end can be counted.
fn end_of_read(line: &Line) -> Option<usize> {
    match (&line.command, &line.answer) {
        (Command::Replies(from), Ok(Said::Replied(replies))) => {
            let brought = replies.get().as_slice().len();
            if brought == 0 {
                return None;
            }
            from.checked_add(brought)
        }
        (_, _) => None,
    }
}

/// Where the last read of replies has ended that brought some; the first index where there is none.
pub(crate) fn end_of_reads(lines: &[Run<Line>]) -> usize {
    lines
        .iter()
        .rev()
        .find_map(|run| end_of_read(&run.entry))
        .unwrap_or(0)
}
