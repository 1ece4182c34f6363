//! How calls have ended.
ghost use Rattle.std.specs.Prelude.{◌≡◌, ◌-◌, ◌^◌};
ghost use Rattle.bz_text.specs.Summary.{no_counts, counted};
ghost use Rattle.bz_text.specs.Summing.{AreBelow};

use bz_call::Reply;

/// How many calls have ended, by their replies.
#[derive(Clone, Copy)]
pub struct Counts {
    pub inserted: u32,
    pub exists: u32,
    pub deleted: u32,
    pub updated: u32,
    pub missing: u32,
    pub value: u32,
    pub page: u32,
    pub full: u32,
}

/// No call has ended.
pub(crate) fn count_none() -> Counts
    ensures { result ≡ no_counts }
{
    Counts {
        inserted: 0,
        exists: 0,
        deleted: 0,
        updated: 0,
        missing: 0,
        value: 0,
        page: 0,
        full: 0,
    }
}

/// One more call has ended, with this reply.
pub(crate) fn count(counts: &mut Counts, reply: Reply)
    requires { AreBelow (2 ^ 32 - 1) counts.old }
    ensures { counts.new ≡ counted reply counts.old }
{
    match reply {
        Reply::Inserted => counts.inserted += 1,
        Reply::Exists => counts.exists += 1,
        Reply::Deleted(_) => counts.deleted += 1,
        Reply::Updated(_) => counts.updated += 1,
        Reply::Missing => counts.missing += 1,
        Reply::Value(_) => counts.value += 1,
        Reply::Page { page: _, next: _ } => counts.page += 1,
        Reply::Full(_) => counts.full += 1,
    }
}
