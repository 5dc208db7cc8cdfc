// Results that are committed.
ghost use Rattle.std.specs.Prelude.{◌≡◌, ◌<◌, ◌++◌, IfOk, None, vec_capacity, vec_len};
ghost use Rattle.shell_answers.specs.Answers.{committed, line_of};
ghost use Rattle.shell_steps.specs.State.{joined};

use crate::stepping::send_told;
use crate::telling::Said;
use node_types::{Answer, Note};
use process_effects::Reply;
use shell_answers::write_committed;
use std::alloc::Global;
use undo_journal::Told;
use values::Row;

/// Tells and sends the replies of a commit, for whose row there is room.
pub fn tell_committed(
    alloc: Global,
    sent: &mut Vec<Row<Reply>>,
    told: Told<Answer, Note>,
    out: &mut Vec<u8>,
) -> Said
    requires { vec_len sent.old < vec_capacity sent.old }
    ensures { IfOk result (λ fate. (fate ≡ None) × (joined sent.new.items ≡ joined sent.old.items ++ told.note.replies)
        × (out.new.items ≡ out.old.items ++ line_of (committed told.note.replies))) }
{
    write_committed(told.note.replies(), out)?;
    send_told(alloc, sent, told);
    Ok(None)
}
