//! The page that says the number of machines on which an edit is kept once it is answered.
ghost use Rattle.web_wire.specs.Kept.{IsKept};

use crate::page::Page;

/// The machines on which an edit is kept once it is answered.
#[derive(Clone, Copy, Debug, PartialEq, Eq)]
pub enum Machines {
    /// On none: the server has no store, and keeps pads in memory alone.
    Zero,
    /// On the server's own machine.
    One,
    /// On the server's own machine and on its standby's.
    Two,
}

/// The page at `/kept`: how many machines, as JSON. No browser keeps a copy of it.
pub fn kept_page(machines: Machines) -> Page
    ensures { IsKept machines result }
{
    let (tag, text) = match machines {
        Machines::Zero => ("\"0\"", "{\"machines\":0}"),
        Machines::One => ("\"1\"", "{\"machines\":1}"),
        Machines::Two => ("\"2\"", "{\"machines\":2}"),
    };
    Page {
        path: "/kept",
        kind: "application/json",
        cache: "no-store",
        tag,
        text,
    }
}
