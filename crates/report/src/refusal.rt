// A refusal as it is printed: by its number and name, and with the frame that it is met at, where that is told.
use failure::Failure;
use std::fmt;

// A frame, by its number and pc.
#[derive(Clone, Copy, Debug, PartialEq, Eq)]
pub struct Spot {
    pub number: usize,
    pub pc: usize,
}

#[derive(Clone, Copy, Debug, PartialEq, Eq)]
pub struct Refusal {
    pub failure: Failure,
    pub spot: Option<Spot>,
}

impl From<Failure> for Refusal {
    fn from(failure: Failure) -> Refusal {
        Refusal {
            failure,
            spot: None,
        }
    }
}

impl fmt::Display for Refusal {
    fn fmt<W: fmt::Write>(&self, f: &mut fmt::Formatter<W>) -> fmt::Result {
        let failure = self.failure;
        let n = failure.number();
        match self.spot {
            Some(Spot { number, pc }) => write!(
                f,
                "refused at frame {number}, pc {pc:016x}, {n} {failure}"
            ),
            None => write!(f, "refused, {n} {failure}"),
        }
    }
}
