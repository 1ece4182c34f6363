//! Where a search by halving looks.

ghost use Rattle.std.specs.Prelude.{◌≡◌, ◌≤◌};
ghost use Rattle.bz_layout.specs.declared.sizes.TheConstants.{SHARED_WORDS};
ghost use Rattle.bz_search.specs.Probes.{IsProbe, probe_in, lower_of, upper_of, down_of};

/// A part of the sorted records of a node, and the one of it that is looked at.
#[derive(Clone, Copy, Drop)]
pub struct Probe {
    /// The first record of the part.
    pub low: u32,
    /// The record that is looked at: the middle one of the part, or one below it where those from there to the middle one are
    /// not visible.
    pub index: u32,
    /// The record after the last one of the part.
    pub high: u32,
}

/// The probe at the middle record of a part; none where the part is empty.
pub fn halved(low: u32, high: u32) -> Option<Probe>
    requires { high ≤ SHARED_WORDS }
    ensures { result ≡ probe_in low high }
{
    if low < high {
        Some(Probe {
            low,
            index: (low + high) / 2,
            high,
        })
    } else {
        None
    }
}

impl Probe {
    /// The next probe where the key is before that of the record: in the lower half.
    pub fn lower(self) -> Option<Probe>
        requires { IsProbe self }
        ensures { result ≡ lower_of self }
    {
        halved(self.low, self.index)
    }

    /// The next probe where the key is after that of the record: in the upper half.
    pub fn upper(self) -> Option<Probe>
        requires { IsProbe self }
        ensures { result ≡ upper_of self }
    {
        halved((self.low + self.high) / 2 + 1, self.high)
    }

    /// The next probe where the record is not visible: at the next one down, and where there is none down to the low end, in
    /// the upper half.
    pub fn down(self) -> Option<Probe>
        requires { IsProbe self }
        ensures { result ≡ down_of self }
    {
        if self.low < self.index {
            Some(Probe {
                index: self.index - 1,
                ..self
            })
        } else {
            self.upper()
        }
    }
}
