//! Which calls are open, what the power is, and which mark is the newest.
ghost use Rattle.std.specs.Prelude.{◌≡◌, ◌+◌, ◌<◌, ◌≤◌, ◌^◌, IfOk, length};
ghost use Rattle.bz_check.specs.Tables.{no_calls, with_begin, with_end, with_effect_of, calls_after, table_after, may_follow_in, may_begin_in, open_in, one_if, is_other_in, others_in, has_number_in, may_act_in, may_effect_in, is_on_in, is_recovering_in, is_off_in, after_fence_in, after_recovering_in, took};

use crate::replay::WORKERS;
use bz_call::Call;
use bz_mark::{Mark, Power};
use bz_oom::Memory;
use std::alloc::Global;
use std::marker::Model;

/// A call that has begun: its number, how many marks stood before its Begin, and before its Effect if it has one.
#[derive(Clone, Copy)]
pub(crate) struct OpenCall {
    pub(crate) number: u32,
    pub(crate) call: Call,
    pub(crate) begun: u32,
    pub(crate) effect: Option<u32>,
}

/// A worker: how many calls it has begun, and the last one unless that has ended.
#[derive(Clone, Copy)]
pub(crate) struct Caller {
    pub(crate) begun: u32,
    pub(crate) last: Option<OpenCall>,
}

/// What a judge keeps of calls and of the power. A call that began before the last cut is open no more.
#[derive(Drop)]
pub(crate) struct Table {
    callers: Vec<Caller>,
    power: Power,
    newest: Option<Mark>,
    // the moment after the last cut
    cut: u32,
}

impl Model for Table {
    ghost use Rattle.bz_check.specs.Tables.{Known};

    ghost Value = { Known };

    ghost view = { λ t. record { callers = t.callers.items; power = t.power; newest = t.newest; cut = t.cut } };
}

/// Whether the power is on.
fn is_on(power: Power) -> bool
    ensures { result ≡ is_on_in power }
{
    match power {
        Power::On => true,
        _ => false,
    }
}

/// Whether the power is recovering.
fn is_recovering(power: Power) -> bool
    ensures { result ≡ is_recovering_in power }
{
    match power {
        Power::Recovering => true,
        _ => false,
    }
}

/// Whether the power is off.
fn is_off(power: Power) -> bool
    ensures { result ≡ is_off_in power }
{
    match power {
        Power::Off => true,
        _ => false,
    }
}

/// Whether the newest mark is a fence or an eviction.
fn is_after_fence(newest: Option<Mark>) -> bool
    ensures { result ≡ after_fence_in newest }
{
    let Some(mark) = newest else {
        return false;
    };
    match mark {
        Mark::Fence { w: _ } => true,
        Mark::Evict { a: _ } => true,
        _ => false,
    }
}

/// Whether the newest mark is an act of worker 0.
fn is_after_recovering(newest: Option<Mark>) -> bool
    ensures { result ≡ after_recovering_in newest }
{
    let Some(mark) = newest else {
        return false;
    };
    match mark {
        Mark::Load { w, a: _, v: _ } => w == 0,
        Mark::Store { w, a: _, v: _ } => w == 0,
        Mark::Cas {
            w,
            a: _,
            old: _,
            new: _,
            found: _,
        } => w == 0,
        Mark::Ask { w, line: _ } => w == 0,
        Mark::Fence { w } => w == 0,
        _ => false,
    }
}

/// A call as it is after its Effect, if there is one.
fn taken(last: Option<OpenCall>, now: u32) -> Option<OpenCall>
    ensures { result ≡ took now last }
{
    let Some(mut call) = last else {
        return None;
    };
    call.effect = Some(now);
    Some(call)
}

/// Whether a call is open and has this number.
fn has_number(last: Option<OpenCall>, n: u32) -> bool
    ensures { result ≡ has_number_in last n }
{
    match last {
        Some(call) => call.number == n,
        None => false,
    }
}

/// Whether a call is open, has this number and took no effect yet.
fn may_effect(last: Option<OpenCall>, n: u32) -> bool
    ensures { result ≡ may_effect_in last n }
{
    match last {
        Some(call) => call.number == n && call.effect.is_none(),
        None => false,
    }
}

impl Table {
    /// No call has begun.
    pub(crate) fn open(alloc: Global, power: Power) -> Result<Table, Memory>
        ensures { IfOk result (λ t. t ≡ no_calls power) }
    {
        let caller = Caller {
            begun: 0,
            last: None,
        };
        let callers = vec![in alloc; caller; WORKERS]?;
        Ok(Table {
            callers,
            power,
            newest: None,
            cut: 0,
        })
    }

    /// A worker's open call.
    pub(crate) fn open_call(&self, w: u8) -> Option<OpenCall>
        requires { length self.now.callers ≡ 256 }
        ensures { result ≡ open_in self.now w }
    {
        let caller = self.callers[w as usize];
        let Some(call) = caller.last else {
            return None;
        };
        if self.cut <= call.begun {
            Some(call)
        } else {
            None
        }
    }

    /// How many of so many workers have an open call, beside this one.
    pub(crate) fn others(&self, workers: u8, w: u8) -> u8
        requires { length self.now.callers ≡ 256 }
        ensures { result ≡ others_in self.now workers w }
    {
        let mut count = 0u8;
        for i in 0..workers {
            count += self.other(i + 1, w);
        }
        count
    }

    /// One where a worker has an open call and is not this one, or else none.
    fn other(&self, v: u8, w: u8) -> u8
        requires { length self.now.callers ≡ 256 }
        ensures few { result ≤ 1 }
        ensures is { result ≡ one_if (is_other_in self.now w v) }
    {
        if v != w && self.open_call(v).is_some() {
            1
        } else {
            0
        }
    }

    fn may_act(&self, w: u8) -> bool
        requires { length self.now.callers ≡ 256 }
        ensures { result ≡ may_act_in self.now w }
    {
        if w == 0 {
            is_recovering(self.power)
        } else {
            self.open_call(w).is_some()
        }
    }

    fn may_begin(&self, w: u8, n: u32) -> bool
        requires { length self.now.callers ≡ 256 }
        ensures { result ≡ may_begin_in self.now w n }
    {
        if w == 0 {
            return false;
        }
        if !is_on(self.power) {
            return false;
        }
        if self.open_call(w).is_some() {
            return false;
        }
        let caller = self.callers[w as usize];
        n > 0 && n - 1 == caller.begun
    }

    /// Whether a mark may follow, where `changes` says of an Effect whether its call changes the map.
    pub(crate) fn may_follow(&self, changes: bool, mark: &Mark) -> bool
        requires { length self.now.callers ≡ 256 }
        ensures { result ≡ may_follow_in self.now changes mark.now }
    {
        match *mark {
            Mark::Begin { w, n, call: _ } => self.may_begin(w, n),
            Mark::End {
                w,
                n,
                reply: _,
                at: _,
            } => has_number(self.open_call(w), n),
            Mark::Load { w, a: _, v: _ } => self.may_act(w),
            Mark::Store { w, a: _, v: _ } => self.may_act(w),
            Mark::Cas {
                w,
                a: _,
                old: _,
                new: _,
                found: _,
            } => self.may_act(w),
            Mark::Ask { w, line: _ } => self.may_act(w),
            Mark::Fence { w } => self.may_act(w),
            Mark::Evict { a: _ } => !is_off(self.power),
            Mark::Cut => !is_off(self.power),
            Mark::On => is_off(self.power),
            Mark::Ready => is_after_recovering(self.newest),
            Mark::Effect { w, n } => {
                is_after_fence(self.newest) && may_effect(self.open_call(w), n) && changes
            }
        }
    }

    fn begin(&mut self, now: u32, w: u8, n: u32, call: Call)
        requires { length self.old.callers ≡ 256 }
        ensures { self.new ≡ with_begin self.old now w n call }
    {
        let mut caller = self.callers[w as usize];
        caller.begun = caller.begun.saturating_add(1);
        caller.last = Some(OpenCall {
            number: n,
            call,
            begun: now,
            effect: None,
        });
        self.callers[w as usize] = caller;
    }

    fn end(&mut self, w: u8)
        requires { length self.old.callers ≡ 256 }
        ensures { self.new ≡ with_end self.old w }
    {
        let mut caller = self.callers[w as usize];
        caller.last = None;
        self.callers[w as usize] = caller;
    }

    fn effect(&mut self, now: u32, w: u8)
        requires { length self.old.callers ≡ 256 }
        ensures { self.new ≡ with_effect_of self.old now w }
    {
        let mut caller = self.callers[w as usize];
        caller.last = taken(caller.last, now);
        self.callers[w as usize] = caller;
    }

    /// Takes what a mark says of calls and of the power.
    fn note(&mut self, now: u32, mark: &Mark)
        requires workers { length self.old.callers ≡ 256 }
        requires few { now + 1 < 2 ^ 32 }
        ensures { self.new ≡ calls_after self.old now mark.now }
    {
        match *mark {
            Mark::Begin { w, n, call } => self.begin(now, w, n, call),
            Mark::End {
                w,
                n: _,
                reply: _,
                at: _,
            } => self.end(w),
            Mark::Effect { w, n: _ } => self.effect(now, w),
            Mark::Cut => {
                self.power = Power::Off;
                self.cut = now + 1;
            }
            Mark::On => self.power = Power::Recovering,
            Mark::Ready => self.power = Power::On,
            _ => {}
        }
    }

    /// Takes a mark, with so many marks before it.
    pub(crate) fn take(&mut self, now: u32, mark: &Mark)
        requires workers { length self.old.callers ≡ 256 }
        requires few { now + 1 < 2 ^ 32 }
        ensures { self.new ≡ table_after self.old now mark.now }
    {
        self.note(now, mark);
        self.newest = Some(*mark);
    }
}
