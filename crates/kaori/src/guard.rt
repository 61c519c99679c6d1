// A guard: its text is an argument of the command. Its tokens and rows are made, and what it reads as is shown.
ghost use Rattle.std.specs.Prelude.{◌≡◌};
ghost use Rattle.kaori.specs.declared.status.Status.TheVariants.{Stopped};

use crate::builtin::Names;
use crate::rooms::Rooms;
use crate::status::Status;
use page::Line;
use showing::cover::noted;
use telling::tell_guard;

// Reads a guard's text in an edition beside built-in names, and shows it. It is refused, or good.
pub(crate) fn guard(names: Names, edition: u32, text: &[u8], line: &mut Line) -> Status
    ensures { result ≡ Stopped → ⊥ }
{
    let mut rooms = Rooms::new();
    let a = rooms.read_guard(names, edition, text);
    if a.code != 0 {
        tell_guard(b"guard", text, &rooms.list, a, line);
        return Status::Refused;
    }
    let mut covers = noted();
    rooms
        .tree(names, text, a.nodes, &mut covers)
        .show_guard(line);
    Status::Good
}
