//! The lines that a worker asked for.

ghost use Rattle.std.specs.Prelude.{◌≡◌, ◌==◌, ◌+◌, ◌<◌, [], length, position, replicate, IfOk};
ghost use Rattle.bz_pm.specs.After.{with_ask};

use bz_oom::Memory;
use std::alloc::Global;
use std::marker::Model;

/// How many lines a worker may ask for between two of its fences.
pub(crate) const LINES_ASKED: usize = 64;

/// A line that was asked for, with the number of asks until then, itself among them, and its eight cached words of then.
#[derive(Clone, Copy)]
pub struct Ask {
    pub line: u32,
    pub moment: u64,
    pub words: [u64; 8],
}

// The lines that one worker asked for since its last fence or the last cut. It takes no memory after its opening.
#[derive(Drop)]
pub(crate) struct Asks {
    lines: Vec<Ask>,
}

impl Model for Asks {
    ghost use Rattle.std.specs.Prelude.{◌≤◌, List, vec_capacity};
    ghost use Rattle.bz_pm.specs.declared.asks.Ask.{Ask};

    ghost Value = { List Ask };

    ghost view = { λ a. a.lines.items };

    ghost invariant = { λ a. 64 ≤ vec_capacity a.lines };
}

// The place of a line among those asked for.
fn place_of(asks: &[Ask], line: u32) -> Option<usize>
    ensures { result ≡ position (λ q. q.line == line) asks.now }
{
    asks.iter().position(|asked| asked.line == line)
}

impl Asks {
    // No line, and room for as many as may be asked for. The error is want of memory.
    pub(crate) fn open(alloc: Global) -> Result<Asks, Memory>
        ensures { IfOk result (λ asks. asks ≡ []) }
    {
        let lines = Vec::with_capacity(alloc, LINES_ASKED)?;
        Ok(Asks { lines })
    }

    // The asks as a slice.
    pub(crate) fn as_slice(&self) -> &[Ask]
        ensures { result.now ≡ self.now }
    {
        self.lines.as_slice()
    }

    // Puts an ask in the place of an older one of its line, or at the end.
    pub(crate) fn put(&mut self, ask: Ask)
        requires { length self.old < 64 }
        ensures { self.new ≡ with_ask self.old ask }
    {
        match place_of(&self.lines, ask.line) {
            Some(place) => self.lines[place] = ask,
            None => match self.lines.extend_from_slice(&[ask]) {
                Ok(()) => {}
                Err(_) => unreachable!(),
            },
        }
    }

    // Forgets all.
    pub(crate) fn clear(&mut self)
        ensures { self.new ≡ [] }
    {
        self.lines.clear();
    }
}

// For each worker from 0 to this one no line, and room for as many as it may ask for. The error is want of memory.
pub(crate) fn no_asks(alloc: Global, workers: u32) -> Result<Vec<Asks>, Memory>
    ensures { IfOk result (λ all. all.items ≡ replicate (workers + 1) []) }
{
    let mut all = Vec::with_capacity(alloc, workers as usize + 1)?;
    for _ in 0..workers as usize + 1 {
        all.push(Asks::open(alloc)?)?;
    }
    Ok(all)
}

// Forgets what each worker asked for.
pub(crate) fn forget(all: &mut [Asks])
    ensures { all.new ≡ replicate (length all.old) [] }
{
    for w in 0..all.len() {
        all[w].clear();
    }
}
