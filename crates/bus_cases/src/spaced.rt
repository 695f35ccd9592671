// Numbers as they are printed: with a space before each.
use std::fmt;

#[derive(Clone, Copy)]
pub(crate) struct Spaced<'a, T>(pub(crate) &'a [T]);

impl<T: fmt::Display> fmt::Display for Spaced<'_, T> {
    fn fmt<W: fmt::Write>(&self, f: &mut fmt::Formatter<W>) -> fmt::Result {
        for number in self.0 {
            write!(f, " {number}")?;
        }
        Ok(())
    }
}
