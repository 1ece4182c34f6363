//! Why bytes are no script.

use bz_oom::Memory;
use std::alloc::{AllocError, AllocFailed};
use std::error::Error;
use std::fmt;

/// A rule that a line of a script may break.
#[derive(Clone, Copy, Debug, PartialEq, Eq)]
pub enum ScriptRule {
    /// The first line is a `memory` line.
    NoMemoryLine,

    /// The first word, and the word that selects a form, are words of the table.
    Unknown,

    /// A line has as many words as its form.
    Words,

    /// A number follows the rule of numbers and is in its range.
    Number,

    /// A key is spelled in its one way.
    Key,

    /// A payload is spelled in its one way.
    Payload,

    /// A worker is a number from 1 to 64.
    Worker,

    /// A line stands where it may stand.
    Order,

    /// A line ends with a line feed.
    NoEnd,
}

impl fmt::Display for ScriptRule {
    ghost use Rattle.std.specs.Prelude.{Some};
    ghost use Rattle.bz_script.specs.Texts.{rule_text};

    ghost output = { λ rule. Some (rule_text rule) };

    fn fmt<W: fmt::Write>(&self, f: &mut fmt::Formatter<W>) -> fmt::Result {
        match self {
            ScriptRule::NoMemoryLine => write!(f, "memory expected"),
            ScriptRule::Unknown => write!(f, "unknown word"),
            ScriptRule::Words => write!(f, "wrong number of words"),
            ScriptRule::Number => write!(f, "bad number"),
            ScriptRule::Key => write!(f, "bad key"),
            ScriptRule::Payload => write!(f, "bad payload"),
            ScriptRule::Worker => write!(f, "bad worker"),
            ScriptRule::Order => write!(f, "wrong order"),
            ScriptRule::NoEnd => write!(f, "line feed expected"),
        }
    }
}

/// Why a line was not read.
#[derive(Clone, Copy)]
pub enum LineFault {
    /// The first rule that the line breaks.
    Rule(ScriptRule),

    /// Want of memory.
    Memory,
}

impl From<ScriptRule> for LineFault {
    ghost use Rattle.std.specs.Prelude.{◌≡◌};
    ghost use Rattle.bz_script.specs.declared.fault.LineFault.TheVariants.{Rule};

    ghost from_gives = { λ rule fault. fault ≡ Rule rule };

    fn from(rule: ScriptRule) -> LineFault {
        LineFault::Rule(rule)
    }
}

impl From<AllocError> for LineFault {
    ghost use Rattle.std.specs.Prelude.{◌≡◌};
    ghost use Rattle.bz_script.specs.declared.fault.LineFault.TheVariants.{Memory as WantOfMemory};

    ghost from_gives = { λ _ fault. fault ≡ WantOfMemory };

    fn from(_refused: AllocError) -> LineFault {
        LineFault::Memory
    }
}

impl<T: Drop> From<AllocFailed<T>> for LineFault {
    ghost use Rattle.std.specs.Prelude.{◌≡◌};
    ghost use Rattle.bz_script.specs.declared.fault.LineFault.TheVariants.{Memory as WantOfMemory};

    ghost from_gives = { λ _ fault. fault ≡ WantOfMemory };

    fn from(_refused: AllocFailed<T>) -> LineFault {
        LineFault::Memory
    }
}

/// Why a script was not read.
#[derive(Clone, Copy, Debug, PartialEq, Eq)]
pub enum ScriptFault {
    /// The first line that breaks a rule, counted from 1, and the first rule that it breaks.
    Rule { line: u32, rule: ScriptRule },

    /// Want of memory.
    Memory,
}

impl fmt::Display for ScriptFault {
    ghost use Rattle.std.specs.Prelude.{Some};
    ghost use Rattle.bz_script.specs.Texts.{fault_text};

    ghost output = { λ fault. Some (fault_text fault) };

    fn fmt<W: fmt::Write>(&self, f: &mut fmt::Formatter<W>) -> fmt::Result {
        match self {
            ScriptFault::Rule { line, rule } => write!(f, "line {line}: {rule}"),
            ScriptFault::Memory => write!(f, "memory"),
        }
    }
}

impl Error for ScriptFault {}

impl From<AllocError> for ScriptFault {
    ghost use Rattle.std.specs.Prelude.{◌≡◌};
    ghost use Rattle.bz_script.specs.declared.fault.ScriptFault.TheVariants.{Memory as WantOfMemory};

    ghost from_gives = { λ _ fault. fault ≡ WantOfMemory };

    fn from(_refused: AllocError) -> ScriptFault {
        ScriptFault::Memory
    }
}

impl From<Memory> for ScriptFault {
    ghost use Rattle.std.specs.Prelude.{◌≡◌};
    ghost use Rattle.bz_script.specs.declared.fault.ScriptFault.TheVariants.{Memory as WantOfMemory};

    ghost from_gives = { λ _ fault. fault ≡ WantOfMemory };

    fn from(_refused: Memory) -> ScriptFault {
        ScriptFault::Memory
    }
}
