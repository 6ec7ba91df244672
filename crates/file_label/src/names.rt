// The codes of a colour label, each with what it stands for.
use std::fmt;

#[derive(Clone, Copy)]
pub struct Primaries(pub u16);

impl fmt::Display for Primaries {
    fn fmt<W: fmt::Write>(&self, f: &mut fmt::Formatter<W>) -> fmt::Result {
        let name = match self.0 {
            1 => "BT.709",
            2 => "unspecified",
            4 => "BT.470M",
            5 => "BT.470BG",
            6 => "BT.601 525",
            7 => "SMPTE 240M",
            8 => "film",
            9 => "BT.2020",
            10 => "SMPTE ST 428",
            11 => "DCI-P3",
            12 => "Display P3",
            22 => "EBU Tech 3213",
            _ => "reserved",
        };
        write!(f, "{} ({name})", self.0)
    }
}

#[derive(Clone, Copy)]
pub struct Transfer(pub u16);

impl fmt::Display for Transfer {
    fn fmt<W: fmt::Write>(&self, f: &mut fmt::Formatter<W>) -> fmt::Result {
        let name = match self.0 {
            1 => "BT.709",
            2 => "unspecified",
            4 => "gamma 2.2",
            5 => "gamma 2.8",
            6 => "BT.601",
            7 => "SMPTE 240M",
            8 => "linear",
            9 => "log 100:1",
            10 => "log 316:1",
            11 => "xvYCC",
            12 => "BT.1361",
            13 => "sRGB",
            14 => "BT.2020 10-bit",
            15 => "BT.2020 12-bit",
            16 => "PQ",
            17 => "SMPTE ST 428",
            18 => "HLG",
            _ => "reserved",
        };
        write!(f, "{} ({name})", self.0)
    }
}

// A matrix goes by its number alone, but where that leaves it open.
#[derive(Clone, Copy)]
pub struct Matrix(pub u16);

impl fmt::Display for Matrix {
    fn fmt<W: fmt::Write>(&self, f: &mut fmt::Formatter<W>) -> fmt::Result {
        match self.0 {
            2 => f.write_str("2 (unspecified)"),
            code => write!(f, "{code}"),
        }
    }
}
