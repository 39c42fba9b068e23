// How answers are printed, and what was lent.
ghost use Rattle.std.specs.Prelude.{◌≤◌, length};

use fraction::{Lowest, cancel};
use reader::Counts;
use refusals::Refusal;
use scorer::BusShare;
use std::fmt;
use std::fmt::{Display, Formatter, Write};

// What a call answers, or the number of the cause that refuses it.
#[derive(Drop)]
pub struct Answer<T>(pub Result<T, Refusal>);

impl<T: Display> Display for Answer<T> {
    fn fmt<W: Write>(&self, f: &mut Formatter<W>) -> fmt::Result {
        match &self.0 {
            Ok(given) => write!(f, "{given}"),
            Err(cause) => write!(f, "refused {}", cause.number()),
        }
    }
}

// What Read answers.
#[derive(Clone, Copy)]
pub struct Read(pub Counts);

impl Display for Read {
    fn fmt<W: Write>(&self, f: &mut Formatter<W>) -> fmt::Result {
        write!(f, "read, buses {}, lines {}", self.0.buses, self.0.lines)
    }
}

// What Shares answers.
#[derive(Clone, Copy)]
pub struct Over(pub u64);

impl Display for Over {
    fn fmt<W: Write>(&self, f: &mut Formatter<W>) -> fmt::Result {
        write!(f, "L {}", self.0)
    }
}

// What Cancel answers.
#[derive(Clone, Copy)]
pub struct Pair(pub Lowest);

impl Display for Pair {
    fn fmt<W: Write>(&self, f: &mut Formatter<W>) -> fmt::Result {
        write!(f, "{}/{}", self.0.top, self.0.bottom)
    }
}

// What Share answers, with the pair cancelled.
#[derive(Clone, Copy)]
pub struct Share(pub BusShare);

impl Display for Share {
    fn fmt<W: Write>(&self, f: &mut Formatter<W>) -> fmt::Result {
        let BusShare { numerator, over } = self.0;
        let cancelled = Answer(cancel(numerator, over).map(Pair));
        write!(f, "{numerator} = {cancelled}")
    }
}

// Up to where a call changed what it was lent.
#[derive(Clone, Copy)]
pub struct Changed(pub usize);

impl Changed {
    // What was lent held the mark everywhere before the call.
    pub fn of<T: Copy + PartialEq>(lent: &[T], mark: T) -> Changed
        ensures { result.0 ≤ length lent.now }
    {
        Changed(
            lent.iter()
                .rposition(|entry| *entry != mark)
                .map_or(0, |last| last + 1),
        )
    }
}

impl Display for Changed {
    fn fmt<W: Write>(&self, f: &mut Formatter<W>) -> fmt::Result {
        write!(f, ", nothing changed")?;
        if self.0 > 0 {
            write!(f, " beyond {} entries", self.0)?;
        }
        Ok(())
    }
}

// Entries behind a colon; nothing if there are none.
#[derive(Clone, Copy)]
pub struct Entries<'a>(pub &'a [u16]);

impl Display for Entries<'_> {
    fn fmt<W: Write>(&self, f: &mut Formatter<W>) -> fmt::Result {
        if !self.0.is_empty() {
            write!(f, ":")?;
        }
        for entry in self.0 {
            write!(f, " {entry}")?;
        }
        Ok(())
    }
}
