//! Open calls.
use bz_any_task::AnyTask;
use bz_call::Call;
use bz_key::Payload;
use bz_solo::Rest;
use bz_task::Path;

/// A worker's open call: how far it has come.
#[derive(Drop)]
pub(crate) struct OpenCall {
    pub call: Call,
    /// What is going on for it.
    pub task: AnyTask,
    /// The way to the leaf of its key, once it was found.
    pub path: Option<Path>,
    /// What its key had when its change was begun.
    pub had: Option<Payload>,
    /// The moment before its effect, if it has had one.
    pub effect: Option<u32>,
    /// Whether its leaf is to be copied alone, since no neighbour had room for it.
    pub alone: bool,
    /// Whether its own freeze of its leaf was the last to end: then the leaf is read whole.
    pub froze: bool,
    /// What is still to be tried for it once it has had its effect.
    pub rest: Rest,
}
