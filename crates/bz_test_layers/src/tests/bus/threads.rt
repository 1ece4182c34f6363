//! Threads that append to one log, each with a pass.
ghost use Rattle.std.specs.Prelude.{◌≡◌, All, IfOk};
ghost use Rattle.bz_bus.specs.Passes.{IsPassOf, number_of, free_in};

use super::log::{Append, Log, Note};
use bz_bus::{Bus, Pass};
use std::alloc::{AllocError, Global};
use std::sync::Wait;
use std::thread;
use std::thread::Threads;

fn add<R: Wait>(rt: &R, bus: &Bus<Log>, pass: &mut Pass<Log>, count: u32)
    requires { IsPassOf bus.now pass.old }
    ensures { IsPassOf bus.now pass.new × (number_of pass.new ≡ number_of pass.old) × (free_in pass.new ≡ free_in pass.old) }
{
    let by = pass.number();
    let mut append = Append {
        note: Note { by, count },
    };
    bus.turn(rt, pass, &mut append);
}

pub fn add_many<R: Wait>(rt: &R, bus: &Bus<Log>, pass: &mut Pass<Log>, many: u32)
    requires { IsPassOf bus.now pass.old }
    ensures { IsPassOf bus.now pass.new × (number_of pass.new ≡ number_of pass.old) × (free_in pass.new ≡ free_in pass.old) }
{
    for count in 0..many {
        add(rt, bus, pass, count);
    }
}

fn add_as<R: Wait>(rt: &R, bus: &Bus<Log>, mut pass: Pass<Log>, many: u32) -> Pass<Log>
    requires { IsPassOf bus.now pass }
    ensures { IsPassOf bus.now result }
{
    add_many(rt, bus, &mut pass, many);
    pass
}

/// Each pass adds as many notes, in a thread of its own.
pub fn add_all<R: Threads + Wait + Sync>(
    rt: &R,
    bus: &Bus<Log>,
    passes: Vec<Pass<Log>, Global>,
    many: u32,
) -> Result<Vec<Pass<Log>, Global>, AllocError>
    requires { All (λ p. IsPassOf bus.now p) passes.items }
    ensures { IfOk result (λ v. All (λ p. IsPassOf bus.now p) v.items) }
{
    thread::map_vec(
        rt,
        passes,
        &|pass: Pass<Log>| -> Pass<Log>
            requires { IsPassOf bus.now pass }
            ensures { IsPassOf bus.entry.now result }
        { add_as(rt, bus, pass, many) },
    )
}
