// The kinds of records, by the letters that stand for them.
use std::fmt;

// A kind of record.
#[derive(Clone, Copy, Debug, PartialEq, Eq)]
pub enum Kind {
    Title,
    Number,
    Sheet,
    Table,
    Write,
    Round,
    Practice,
    Made,
    Tick,
    Replay,
    Search,
    Call,
    Layout,
    Evidence,
    Closed,
    File,
    Service,
    Totals,
    Session,
    Calls,
    CutTable,
    CutState,
    CutSheet,
    CutList,
    After,
}

// A letter that stands for no kind.
#[derive(Clone, Copy, Debug, PartialEq, Eq)]
pub struct UnknownKind;

impl TryFrom<u8> for Kind {
    type Error = UnknownKind;

    fn try_from(letter: u8) -> Result<Self, UnknownKind> {
        Ok(match letter {
            b'#' => Kind::Title,
            b'n' => Kind::Number,
            b's' => Kind::Sheet,
            b't' => Kind::Table,
            b'w' => Kind::Write,
            b'r' => Kind::Round,
            b'd' => Kind::Practice,
            b'm' => Kind::Made,
            b'k' => Kind::Tick,
            b'p' => Kind::Replay,
            b'v' => Kind::Search,
            b'q' => Kind::Call,
            b'l' => Kind::Layout,
            b'e' => Kind::Evidence,
            b'c' => Kind::Closed,
            b'f' => Kind::File,
            b'u' => Kind::Service,
            b'z' => Kind::Totals,
            b'x' => Kind::Session,
            b'y' => Kind::Calls,
            b'a' => Kind::CutTable,
            b'b' => Kind::CutState,
            b'g' => Kind::CutSheet,
            b'h' => Kind::CutList,
            b'j' => Kind::After,
            _ => return Err(UnknownKind),
        })
    }
}

impl fmt::Display for UnknownKind {
    fn fmt<W: fmt::Write>(&self, f: &mut fmt::Formatter<W>) -> fmt::Result {
        f.write_str("unknown kind")
    }
}
