use crate::data::Par;
use std::fmt;

impl fmt::Display for Par {
    fn fmt<W: fmt::Write>(&self, f: &mut fmt::Formatter<W>) -> fmt::Result {
        let said = if self.fits { "yes" } else { "no" };
        match self.need {
            Some(n) => write!(f, "{said} {n}"),
            None => write!(f, "{said} stuck"),
        }
    }
}
