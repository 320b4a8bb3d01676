// Sheet numbers.
use crate::body::Body;
use crate::text::Shown;
use std::{fmt, io};

// A number and the place after it.
impl fmt::Display for Shown<(usize, usize)> {
    fn fmt<W: fmt::Write>(&self, f: &mut fmt::Formatter<W>) -> fmt::Result {
        let (value, next) = self.0;
        write!(f, " {value} {next}")
    }
}

// Kind n, a place and bytes: the number that starts there, and the place after it.
pub fn number(rt: &impl Print, mut body: Body) -> io::Result<()> {
    let at = usize::from(body.byte());
    println!(rt; "number{}", Shown(tasks::read_number(body.rest(), at)))
}
