//! Why a commit's lines could not be read.

ghost use Rattle.std.specs.Prelude.{◌≡◌, Some};
ghost use Rattle.delta_actions.specs.FaultTexts.{fault_text};
ghost use Rattle.delta_actions.specs.Wrong.{fault_at};
ghost use Rattle.delta_actions.specs.declared.fault.ActionFault.TheVariants.{Memory};

use json_fields::FieldFault;
use std::alloc::{AllocError, AllocFailed};
use std::fmt;
use std::fmt::{Display, Formatter};
use thiserror::Error;

/// What is wrong with a line of a commit. Lines count from 1, blank ones too. The texts are written by hand,
/// so that contracts know them.
#[derive(Clone, Copy, Debug, PartialEq, Eq, Error)]
pub enum ActionFault {
    /// The line is no JSON object (RFC 8259), or isn't UTF-8.
    BadJson { line: u64 },
    /// A field is missing or of another kind. Where an action's body is no object, the field is
    /// the action's own key.
    BadField { line: u64, field: &'static str },
    /// The object has no key or several, and an action has one (Delta PROTOCOL.md, "Actions").
    NotOneKey { line: u64 },
    /// Memory ran out.
    Memory,
}

impl ActionFault {
    /// The fault of a line whose fields could not be read.
    pub(crate) fn at(line: u64, fault: FieldFault) -> ActionFault
        ensures { result ≡ fault_at line fault }
    {
        match fault {
            FieldFault::BadField { field } => ActionFault::BadField { line, field },
            FieldFault::Memory => ActionFault::Memory,
        }
    }
}

impl Display for ActionFault {
    ghost output = { λ fault. Some (fault_text fault) };

    fn fmt<W: fmt::Write>(&self, f: &mut Formatter<W>) -> fmt::Result {
        match self {
            ActionFault::BadJson { line } => write!(f, "A1 BadJson {line}"),
            ActionFault::BadField { line, field } => write!(f, "A2 BadField {line} {field}"),
            ActionFault::NotOneKey { line } => write!(f, "A3 NotOneKey {line}"),
            ActionFault::Memory => f.write_str("Memory"),
        }
    }
}

impl From<AllocError> for ActionFault {
    ghost from_gives = { λ _ e. e ≡ Memory };

    fn from(_e: AllocError) -> ActionFault {
        ActionFault::Memory
    }
}

impl<T: Drop> From<AllocFailed<T>> for ActionFault {
    ghost from_gives = { λ _ e. e ≡ Memory };

    fn from(_e: AllocFailed<T>) -> ActionFault {
        ActionFault::Memory
    }
}
