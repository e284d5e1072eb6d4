//! Whole histories of edits.
ghost use Rattle.taskset.specs.Sets.{Replayed};

use crate::set::TaskSet;
use ledger::{Edit, SetFault};
use loads::LoadKind;
use supplies::Supply;

/// Makes the edits one after another on a new set; answers the set, and writes what each edit was answered into the room that it
/// is lent. Where there is less room than edits, it does nothing and answers none.
pub fn replay<K: LoadKind + Drop, S: Supply + Drop>(
    kind: K,
    supply: S,
    edits: &[Edit],
    answers: &mut [Result<(), SetFault>],
) -> Option<TaskSet<K, S>>
    ensures { Replayed K.LoadKind S.Supply kind supply edits.now result answers.old answers.new }
{
    if answers.len() < edits.len() {
        return None;
    }
    let mut set = TaskSet::new(kind, supply);
    // by index: after an adapter of `iter_mut`, as a `zip` with the edits, a proof knows nothing of what was written
    for (i, edit) in edits.iter().enumerate() {
        answers[i] = set.edit(*edit);
    }
    Some(set)
}
