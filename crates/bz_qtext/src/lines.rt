//! Lines of the report.
ghost use Rattle.std.specs.Prelude.{◌≡◌, ◌++◌, OnOk};
ghost use Rattle.bz_qtext.specs.Lines.{call_text, reply_text, line_start, line_of, fate_line, power_line};

use crate::ended::QEnded;
use bz_oom::Memory;
use bz_queue::{QCall, QReply};
use bz_text::{put, put_fate, put_name, put_number};
use std::alloc::Global;

fn put_call(alloc: Global, out: &mut Vec<u8>, call: QCall) -> Result<(), Memory>
    ensures { OnOk result (out.new.items ≡ out.old.items ++ call_text call) }
{
    match call {
        QCall::Put(item) => {
            put(out, b"put ")?;
            put_number(alloc, out, item)
        }
        QCall::Take => put(out, b"take"),
    }
}

fn put_reply(alloc: Global, out: &mut Vec<u8>, reply: QReply) -> Result<(), Memory>
    ensures { OnOk result (out.new.items ≡ out.old.items ++ reply_text reply) }
{
    match reply {
        QReply::Put => put(out, b"put"),
        QReply::Taken(item) => {
            put(out, b"taken ")?;
            put_number(alloc, out, item)
        }
        QReply::Empty => put(out, b"empty"),
        QReply::Full => put(out, b"full"),
        QReply::Spent => put(out, b"spent"),
    }
}

/// Puts what stands before the result in the line of a call.
fn put_start(
    alloc: Global,
    out: &mut Vec<u8>,
    worker: u8,
    number: u32,
    call: QCall,
) -> Result<(), Memory>
    ensures { OnOk result (out.new.items ≡ out.old.items ++ line_start worker number call) }
{
    put_name(alloc, out, worker, number)?;
    put(out, b" ")?;
    put_call(alloc, out, call)?;
    put(out, b" = ")
}

/// Puts the line of a call that has ended.
pub(crate) fn put_line(alloc: Global, out: &mut Vec<u8>, ended: QEnded) -> Result<(), Memory>
    ensures { OnOk result (out.new.items ≡ out.old.items ++ line_of ended) }
{
    put_start(alloc, out, ended.worker, ended.number, ended.call)?;
    put_reply(alloc, out, ended.reply)?;
    put(out, b"\n")
}

/// Puts the line of a call that was open when the power was cut: it is kept where it had taken effect, and lost otherwise.
pub(crate) fn put_fate_line(
    alloc: Global,
    out: &mut Vec<u8>,
    worker: u8,
    number: u32,
    call: QCall,
    effective: bool,
) -> Result<(), Memory>
    ensures { OnOk result (out.new.items ≡ out.old.items ++ fate_line worker number call effective) }
{
    put_start(alloc, out, worker, number, call)?;
    put_fate(out, effective)?;
    put(out, b"\n")
}

/// Puts the line of the power, if it came on.
pub(crate) fn put_power(alloc: Global, out: &mut Vec<u8>, items: Option<u32>) -> Result<(), Memory>
    ensures { OnOk result (out.new.items ≡ out.old.items ++ power_line items) }
{
    match items {
        Some(items) => {
            put(out, b"power on ")?;
            put_number(alloc, out, u64::from(items))?;
            put(out, b" items\n")
        }
        None => put(out, b""),
    }
}
