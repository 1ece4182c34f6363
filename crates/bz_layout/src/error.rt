use std::error::Error;
use std::fmt;

/// The first number of a configuration that is out of its range.
#[derive(Clone, Copy, Debug, PartialEq, Eq, Hash)]
pub enum ConfigError {
    Nodes,
    Swaps,
    Workers,
    Marks,
    Calls,
    Pages,
}

impl fmt::Display for ConfigError {
    ghost use Rattle.std.specs.Prelude.{Some};
    ghost use Rattle.bz_layout.specs.Texts.{config_error_text};

    ghost output = { λ error. Some (config_error_text error) };

    fn fmt<W: fmt::Write>(&self, f: &mut fmt::Formatter<W>) -> fmt::Result {
        match self {
            ConfigError::Nodes => write!(f, "the number of nodes is not 1 to 16384"),
            ConfigError::Swaps => write!(f, "the number of swaps is not 1 to 65536"),
            ConfigError::Workers => write!(f, "the number of workers is not 1 to 64"),
            ConfigError::Marks => write!(f, "the limit on marks is not 1024 to 33554432"),
            ConfigError::Calls => write!(f, "the limit on calls is not 1 to 65536"),
            ConfigError::Pages => write!(f, "the limit on pages is above 4096"),
        }
    }
}

impl Error for ConfigError {}
