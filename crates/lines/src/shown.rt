// What is wrong with a line, as text.
use crate::{What, Wrong};
use std::fmt;

impl fmt::Display for What {
    fn fmt<W: fmt::Write>(&self, f: &mut fmt::Formatter<W>) -> fmt::Result {
        f.write_str(match self {
            What::NoLink => {
                "no link, and none of reply, poll, build, erase, slow, clock, error, help; fields are parted by tabs"
            }
            What::Missing => "missing",
            What::TooMany => "one too many",
            What::NoRoom => "no room for this word",
            What::NoNumber32 => "no decimal number below 4294967296",
            What::NoNumber64 => "no decimal number below 18446744073709551616",
            What::NoBc => "no BC, 0 to 3",
            What::NoFlag => "neither 0 nor 1",
            What::NoHex32 => "not one to eight hex digits",
            What::NoWord => "not four hex digits",
        })
    }
}

impl fmt::Display for Wrong {
    fn fmt<W: fmt::Write>(&self, f: &mut fmt::Formatter<W>) -> fmt::Result {
        write!(f, "field {}: {}", self.field, self.what)
    }
}
