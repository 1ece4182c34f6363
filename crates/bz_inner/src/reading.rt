//! What comes after the load of a word of one of the three nodes.

ghost use Rattle.std.specs.Prelude.{◌≡◌, ◌↔◌, ◌≤◌, ℕ, false, IsTrue};
ghost use Rattle.bz_layout.specs.declared.sizes.TheConstants.{NODE_WORDS};
ghost use Rattle.bz_renew.specs.Due.{IsStatusOf};
ghost use Rattle.bz_task.specs.declared.todo.Seen.TheVariants.{Read as Was};
ghost use Rattle.bz_inner.specs.JoinFacts.{above_after, own_after, beside_after, HasOpened};

use crate::join_phase::JoinPhase;
use bz_gaps::first_word;
use bz_layout::NODE_WORDS;
use bz_node::NodeImage;
use bz_task::Seen;
use bz_word::Status;
use bz_writer::{WritePhase, word_in};

/// The words with which the reading of the neighbour begins, and the next phase.
#[derive(Clone, Copy, Drop)]
pub(crate) struct Opened {
    pub read: NodeImage,
    pub phase: JoinPhase,
}

/// The phase after the load of the neighbour's status, and its words so far: it is read on unless it is frozen.
pub(crate) fn first_read(seen: Seen) -> Opened
    ensures { HasOpened seen result.read.0 result.phase }
{
    let word = word_in(seen);
    if is_open(seen) {
        Opened {
            read: first_word(word),
            phase: JoinPhase::Beside(1),
        }
    } else {
        Opened {
            read: first_word(word),
            phase: JoinPhase::Writing(WritePhase::Restart),
        }
    }
}

// Whether a load found the status of a node that is not frozen.
fn is_open(seen: Seen) -> bool
    ensures { IsTrue result ↔ ((v : ℕ) × ((seen ≡ Was v) × IsStatusOf false v)) }
{
    bz_word::laws::statuses();
    match seen {
        Seen::Read(word) => match Status::unpack(word) {
            Some(status) => !status.frozen,
            None => false,
        },
        _ => false,
    }
}

/// The phase after the load of a word of the root: that of the next one that is read, or the status once more.
pub(crate) fn after_above(next: u32) -> JoinPhase
    requires { next ≤ NODE_WORDS }
    ensures { result ≡ above_after next }
{
    if next < NODE_WORDS {
        JoinPhase::Above(next)
    } else {
        JoinPhase::AboveAgain
    }
}

/// The same of a word of the node.
pub(crate) fn after_own(next: u32) -> JoinPhase
    requires { next ≤ NODE_WORDS }
    ensures { result ≡ own_after next }
{
    if next < NODE_WORDS {
        JoinPhase::Own(next)
    } else {
        JoinPhase::OwnAgain
    }
}

/// The same of a word of its neighbour.
pub(crate) fn after_beside(next: u32) -> JoinPhase
    requires { next ≤ NODE_WORDS }
    ensures { result ≡ beside_after next }
{
    if next < NODE_WORDS {
        JoinPhase::Beside(next)
    } else {
        JoinPhase::BesideAgain
    }
}
