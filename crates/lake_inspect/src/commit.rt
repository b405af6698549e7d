//! Delta commits as text.

ghost use Rattle.std.specs.List.{AllByRecursion};
ghost use Rattle.delta_actions.specs.Action.{views};
ghost use Rattle.delta_actions.specs.Printing.{IsPrintable};

use byte_words::{LineFault, Transcript};
use delta_actions::{Action, FilePath, print_line, read_commit};
use std::alloc::AllocError;

/// Tells how many actions a commit has, and each of them: what it is, and the line that it is printed as.
pub fn tell_commit(bytes: &[u8], told: &mut Transcript) -> Result<(), LineFault> {
    match read_commit(told.alloc(), bytes) {
        Ok(actions) => Ok(tell_actions(&actions, told)?),
        Err(fault) => Err(told.refused(&fault)),
    }
}

fn tell_actions(actions: &[Action], told: &mut Transcript) -> Result<(), AllocError>
    requires { AllByRecursion IsPrintable (views actions.now) }
{
    told.show("", &actions.len());
    told.put(" actions");
    for action in actions {
        tell_title(action, told)?;
        told.put(" ");
        told.bytes(&print_line(told.alloc(), action)?);
    }
    Ok(())
}

/// Tells what an action is read as. Of an added or removed file also the key that its path decodes to.
fn tell_title(action: &Action, told: &mut Transcript) -> Result<(), AllocError> {
    let title = match action {
        Action::CommitInfo(_) => "commitInfo",
        Action::Protocol(_) => "protocol",
        Action::MetaData(_) => "metaData",
        Action::Add(add) => return tell_path("add of ", &add.path, told),
        Action::Txn(_) => "txn",
        Action::Remove(remove) => return tell_path("remove of ", &remove.path, told),
        Action::DomainMetadata(_) => "domainMetadata",
        Action::CheckpointMetadata(_) => "checkpointMetadata",
        Action::Sidecar(_) => "sidecar",
        Action::Other { key: _, value: _ } => "other",
    };
    told.line(title);
    Ok(())
}

fn tell_path(title: &str, path: &FilePath, told: &mut Transcript) -> Result<(), AllocError> {
    let key = path.key(told.alloc())?;
    told.line(title);
    told.show("", &key);
    Ok(())
}
