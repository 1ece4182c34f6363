//! The four rows of the table.

use super::bench::Found;
use super::images::{frozen_root, full_root, three_levels, two_leaves};
use crate::tests::bench::{key, payload};
use bz_call::{Call, Reply};
use bz_key::{Key, Payload};
use std::alloc::Global;
use std::process::Abort;
use std::test::Fail;

/// What a call answers.
#[derive(Clone, Copy, PartialEq, Eq)]
pub(super) enum Answer {
    Inserted,
    Deleted(Payload),
    Updated(Payload),
    Other,
}

/// What a reply says.
pub(super) fn answer_of(reply: &Reply) -> Answer {
    match reply {
        Reply::Inserted => Answer::Inserted,
        Reply::Deleted(old) => Answer::Deleted(*old),
        Reply::Updated(old) => Answer::Updated(*old),
        _ => Answer::Other,
    }
}

/// A call over an image, and its answer; and what is found if the call is lost, with a get of its key, and if it is kept.
#[derive(Drop)]
pub(super) struct Row {
    pub(super) name: &'static str,
    pub(super) image: Vec<u64>,
    pub(super) call: Call,
    pub(super) answer: Answer,
    pub(super) key: Key,
    pub(super) lost: Found,
    pub(super) kept: Found,
}

// So many pairs, and this value.
fn found(pairs: usize, value: Option<Payload>) -> Found {
    Found { pairs, value }
}

/// A full root leaf, and an insert that splits it.
pub(super) fn split(rt: &impl Abort, alloc: Global) -> Result<Row, Fail> {
    let (key, v) = (key(rt, b"k80"), payload(rt, b"v"));
    Ok(Row {
        name: "insert k80 v",
        image: full_root(alloc)?,
        call: Call::Insert(key, v),
        answer: Answer::Inserted,
        key,
        lost: found(79, None),
        kept: found(80, Some(v)),
    })
}

/// A root over two leaves, and a delete that merges them and lowers the root.
pub(super) fn merge(rt: &impl Abort, alloc: Global) -> Result<Row, Fail> {
    let (key, v) = (key(rt, b"k10"), payload(rt, b"v"));
    Ok(Row {
        name: "delete k10",
        image: two_leaves(alloc)?,
        call: Call::Delete(key),
        answer: Answer::Deleted(v),
        key,
        lost: found(42, Some(v)),
        kept: found(41, None),
    })
}

/// A root over two inner nodes, and a delete that merges them and lowers the root.
pub(super) fn shrink(rt: &impl Abort, alloc: Global) -> Result<Row, Fail> {
    let (key, v) = (key(rt, b"a"), payload(rt, b"v"));
    Ok(Row {
        name: "delete a",
        image: three_levels(alloc)?,
        call: Call::Delete(key),
        answer: Answer::Deleted(v),
        key,
        lost: found(3, Some(v)),
        kept: found(2, None),
    })
}

/// A frozen root leaf, and an update that copies it.
pub(super) fn copy(rt: &impl Abort, alloc: Global) -> Result<Row, Fail> {
    let (key, old, new) = (key(rt, b"a"), payload(rt, b"1"), payload(rt, b"2"));
    Ok(Row {
        name: "update a 2",
        image: frozen_root(alloc)?,
        call: Call::Update(key, new),
        answer: Answer::Updated(old),
        key,
        lost: found(1, Some(old)),
        kept: found(1, Some(new)),
    })
}
