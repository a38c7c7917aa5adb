//! How a command ends where its role did not start, or stopped.

ghost use Rattle.std.specs.Prelude.{◌≡◌};
ghost use Rattle.role_commands.specs.Told.{Stopped};

use apart_roles::RoleError;
use command_words::{Outcome, Unread, Unwritten};

/// How a command ends whose role stopped for this cause, over the journal of this name.
pub(crate) fn stopped<'a>(journal: &'a str, cause: RoleError) -> Outcome<'a>
    ensures { Stopped journal.now (λ error. error ≡ cause) result }
{
    match cause {
        RoleError::Input => Outcome::Unread(Unread::Input),
        RoleError::Journal => Outcome::Unwritten(Unwritten::File(journal)),
        RoleError::Output => Outcome::Unwritten(Unwritten::Output),
        RoleError::Memory => Outcome::NoMemory,
    }
}
