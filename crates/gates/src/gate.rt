//! Whether a request may start.
ghost use Rattle.std.specs.Prelude.{◌≡◌};
ghost use Rattle.gates.specs.Shows.{gate_by};

/// Whether a request may start.
#[derive(Clone, Copy, PartialEq, Eq, Debug)]
pub enum Gate {
    /// Its chain and the drains let it start. For a LINK_TIMEOUT: they let its target start.
    Open,
    /// It waits for another request.
    Shut,
    /// An earlier member of its chain failed, and ended the rest of it.
    Severed,
}

/// What a row that trails its ring knows of whether a request may start: a request that is pending in the row may have replied.
#[derive(Clone, Copy, PartialEq, Eq, Debug)]
pub enum Asked {
    /// An earlier member of its chain failed, and ended the rest of it.
    Severed,
    /// Its chain and the drains let it start.
    Open,
    /// It is the LINK_TIMEOUT of this request, which is pending in the row, and their chain and the drains let both start. It
    /// is severed only if that one has replied.
    OpenWith(u64),
    /// This request is pending in the row, and keeps it from starting unless it has replied. The other one, if any, is the
    /// nearest earlier member of its chain that is pending in the row: a failure of that one ends the chain, whoever else is
    /// in the way.
    Blocked(u64, Option<u64>),
}

impl Asked {
    /// The gate, where all replies are known.
    pub(crate) fn gate(self) -> Gate
        ensures { result ≡ gate_by self }
    {
        match self {
            Asked::Severed => Gate::Severed,
            Asked::Open | Asked::OpenWith(_) => Gate::Open,
            Asked::Blocked(..) => Gate::Shut,
        }
    }
}
