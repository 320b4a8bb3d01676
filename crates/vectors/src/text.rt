// What the lines are made of: fields, each after a space.
use std::fmt;
use tasks::Refusal;

// A value as the fields of a line.
#[derive(Clone, Copy)]
pub struct Shown<T>(pub T);

// A refusal, by its number.
#[derive(Clone, Copy)]
pub struct Refused(pub Refusal);

// Bytes in two hexadecimal digits each.
#[derive(Clone, Copy)]
pub struct Hex<'a>(pub &'a [u8]);

impl fmt::Display for Refused {
    fn fmt<W: fmt::Write>(&self, f: &mut fmt::Formatter<W>) -> fmt::Result {
        write!(f, " refused {}", self.0.number())
    }
}

// What a call answers, or its refusal.
impl<T: Copy> fmt::Display for Shown<Result<T, Refusal>>
where
    Shown<T>: fmt::Display,
{
    fn fmt<W: fmt::Write>(&self, f: &mut fmt::Formatter<W>) -> fmt::Result {
        match self.0 {
            Ok(answer) => write!(f, "{}", Shown(answer)),
            Err(r) => write!(f, "{}", Refused(r)),
        }
    }
}

impl fmt::Display for Shown<usize> {
    fn fmt<W: fmt::Write>(&self, f: &mut fmt::Formatter<W>) -> fmt::Result {
        write!(f, " {}", self.0)
    }
}

impl fmt::Display for Shown<u64> {
    fn fmt<W: fmt::Write>(&self, f: &mut fmt::Formatter<W>) -> fmt::Result {
        write!(f, " {}", self.0)
    }
}

impl fmt::Display for Hex<'_> {
    fn fmt<W: fmt::Write>(&self, f: &mut fmt::Formatter<W>) -> fmt::Result {
        if self.0.is_empty() {
            return f.write_str("empty");
        }
        for byte in self.0 {
            write!(f, "{byte:02x}")?;
        }
        Ok(())
    }
}
