//! Numbers and sets as people read them.

use crate::looks::SERVERS;
use crate::rates::SECOND;
use crate::roles::is_in;
use std::fmt;
use std::fmt::Display;

/// A number in few places: as it is if it is at most `most`, else in thousands (`k`), millions (`M`) and so on, rounded
/// down.
#[derive(Clone, Copy)]
pub(crate) struct Short {
    /// The number.
    pub(crate) number: u64,
    /// The greatest number that is written without its last digits.
    pub(crate) most: u64,
}

impl Display for Short {
    fn fmt<W: fmt::Write>(&self, f: &mut fmt::Formatter<W>) -> fmt::Result {
        let mut number = self.number;
        let mut thousands = 0;
        for power in 1..7 {
            if number > self.most {
                number /= 1000;
                thousands = power;
            }
        }
        let unit = unit_of(thousands);
        write!(f, "{number}{unit}")
    }
}

// The letter of a power of a thousand, up to the sixth.
fn unit_of(power: u8) -> &'static str {
    match power {
        0 => "",
        1 => "k",
        2 => "M",
        3 => "G",
        4 => "T",
        5 => "P",
        _ => "E",
    }
}

/// A time of so many nanoseconds in seconds, exactly, without zeros at the end of the fraction.
#[derive(Clone, Copy)]
pub(crate) struct Seconds(pub(crate) u64);

impl Display for Seconds {
    fn fmt<W: fmt::Write>(&self, f: &mut fmt::Formatter<W>) -> fmt::Result {
        let (whole, mut rest) = (self.0 / SECOND, self.0 % SECOND);
        if rest == 0 {
            return write!(f, "{whole}");
        }
        let mut places = 9;
        for shorter in (1..9).rev() {
            if rest % 10 == 0 {
                rest /= 10;
                places = shorter;
            }
        }
        write!(f, "{whole}.{rest:0places$}")
    }
}

/// A time of so many nanoseconds in seconds, minutes, hours or days, rounded down: at most 9,999 of them.
#[derive(Clone, Copy)]
pub(crate) struct Age(pub(crate) u64);

impl Display for Age {
    fn fmt<W: fmt::Write>(&self, f: &mut fmt::Formatter<W>) -> fmt::Result {
        let seconds = self.0 / SECOND;
        let (number, unit) = if seconds < 120 {
            (seconds, "s")
        } else if seconds < 7_200 {
            (seconds / 60, "m")
        } else if seconds < 172_800 {
            (seconds / 3_600, "h")
        } else {
            ((seconds / 86_400).min(9_999), "d")
        };
        write!(f, "{number}{unit}")
    }
}

/// The numbers of the servers of a set, with commas between them.
#[derive(Clone, Copy)]
pub(crate) struct Numbers(pub(crate) u16);

impl Display for Numbers {
    fn fmt<W: fmt::Write>(&self, f: &mut fmt::Formatter<W>) -> fmt::Result {
        let mut between = "";
        for i in 0..SERVERS {
            if is_in(self.0, i) {
                write!(f, "{between}{i}")?;
                between = ",";
            }
        }
        Ok(())
    }
}
