// What is asked of a view, and why it is refused.
ghost use Rattle.logger_view.specs.declared.loading.ViewFault.{ViewFault};
ghost use Rattle.std.specs.Prelude.{◌≡◌};
ghost use Rattle.view_change.specs.Changes.{id_of, refusal_of_load};

use logger_view::ViewFault;

/// A change of a view. Loggers go by their numbers as volumes.
#[derive(Clone, Copy, Debug, PartialEq, Eq)]
pub enum Change {
    /// This logger is asked last from now on.
    Add(u32),
    /// This logger is asked no more, and the others keep their order.
    Remove(u32),
}

impl Change {
    /// The logger that it is about.
    pub(crate) fn id(&self) -> u32
        ensures { result ≡ id_of self.now }
    {
        match self {
            Change::Add(id) => *id,
            Change::Remove(id) => *id,
        }
    }
}

/// Why a view was not changed, in the order in which the causes are tried. Nothing was written but where a store failed.
#[derive(Clone, Copy, Debug, PartialEq, Eq)]
pub enum ChangeRefusal {
    /// No volume has this number.
    Unknown { id: u32 },
    /// The logger is the volume itself.
    Itself,
    /// The logger is in the view.
    Already { id: u32 },
    /// The logger isn't in the view.
    NotThere { id: u32 },
    /// The view has sixteen loggers.
    ViewFull,
    /// Block 0 is no label; or it is one, and block 1 is no view or names the volume itself.
    Damaged { block: u32 },
    /// A call of the part failed. If it was one of the store, the new view may be there or not.
    Failed,
}

impl From<ViewFault> for ChangeRefusal {
    ghost from_gives = { λ fault e. e ≡ refusal_of_load fault };

    fn from(fault: ViewFault) -> ChangeRefusal {
        match fault {
            ViewFault::Damaged { block } => ChangeRefusal::Damaged { block },
            ViewFault::Failed => ChangeRefusal::Failed,
        }
    }
}
