//! How far a text was read: each function that reads takes a cursor and gives one, and hands a fault on as it is.
ghost use Rattle.std.specs.Prelude.{◌≡◌, ◌<◌};
ghost use Rattle.parsing.specs.Cursor.{fault_at, behind, entered};

/// A place behind what was read, with the number of nodes met so far and the number read last (of a variable, a test, a section, a value, or the
/// place of a name); or, where `code` is not 0, a fault: its number, its place and its detail.
#[derive(Clone, Copy, Debug, PartialEq, Eq)]
pub struct Cursor {
    pub at: usize,
    pub count: usize,
    pub found: usize,
    pub code: u8,
    pub detail: u8,
}

/// A fault at a place.
pub fn fault(c: Cursor, code: u8, at: usize, detail: u8) -> Cursor
    ensures { result ≡ fault_at c code at detail }
{
    Cursor {
        at: at,
        count: c.count,
        found: c.found,
        code: code,
        detail: detail,
    }
}

/// Behind a token, with what it says.
pub fn read(c: Cursor, at: usize, found: usize, detail: u8) -> Cursor
    ensures { result ≡ behind c at found detail }
{
    Cursor {
        at: at,
        count: c.count,
        found: found,
        code: 0,
        detail: detail,
    }
}

/// With a node more.
pub fn enter(c: Cursor) -> Cursor
    requires { c.count < 200 }
    ensures { result ≡ entered c }
{
    Cursor {
        at: c.at,
        count: c.count + 1,
        found: c.found,
        code: c.code,
        detail: c.detail,
    }
}
